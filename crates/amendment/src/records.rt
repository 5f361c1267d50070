// The records of the amended plan, decoded once from the blocks that count. It meets specs/Amended.antt.
ghost use Rattle.std.specs.Prelude.{◌≡◌, ◌≤◌, ◌<◌};
ghost use Rattle.plan.specs.Ranges.{most_guests};
ghost use Rattle.block.specs.Reading.{guest_of};
ghost use Rattle.blockfile.specs.File.{blocks_in};
ghost use Rattle.blockfile.specs.Records.{records_of};
ghost use Rattle.amendment.specs.Amended.{amended_block, amended};
ghost use Rattle.amendment.specs.Pair.{pair_refusal, unless_located};

use crate::Located;
use crate::pairs::check_pair;
use block::layout::SIZE;
use plan::{Guest, Plan};

// The record of the block that counts for the guest at place k of the plan.
fn guest_at(plan: &[u8], sheet: &[u8], k: usize) -> Guest
    requires { (k < blocks_in plan.now) × (blocks_in sheet.now ≤ most_guests) }
    ensures { result ≡ guest_of (amended_block plan.now sheet.now k) }
{
    match blockfile::first_with(sheet, blockfile::id_at(plan, k)) {
        Some(j) => blockfile::guest_at(sheet, j as usize),
        None => blockfile::guest_at(plan, k),
    }
}

// The records of the amended plan's n guests, and records of zeros.
fn guests_of(plan: &[u8], sheet: &[u8], n: usize) -> [Guest; 8]
    requires { ((n ≤ most_guests) × (n ≤ blocks_in plan.now)) × (blocks_in sheet.now ≤ most_guests) }
    ensures { result ≡ records_of (amended_block plan.now sheet.now) n }
{
    let mut guests = [plan::blank_guest(); 8];
    for k in 0..n {
        guests[k] = guest_at(plan, sheet, k);
    }
    guests
}

// The amended plan.
#[tactic(auto, unfolding(crate::specs::Amended::amended))]
pub fn amended(plan: &[u8], sheet: &[u8]) -> Plan
    requires { (blocks_in plan.now ≤ most_guests) × (blocks_in sheet.now ≤ most_guests) }
    ensures { result ≡ amended plan.now sheet.now }
{
    let n = plan.len() / SIZE;
    let guests = guests_of(plan, sheet, n);
    Plan {
        count: n as u32,
        guests,
    }
}

// A pair read: the amended plan, or the refusal, which says whether its place is one in the sheet.
pub fn read(plan: &[u8], sheet: &[u8]) -> Result<Plan, Located>
    ensures { result ≡ unless_located (pair_refusal plan.now sheet.now) (amended plan.now sheet.now) }
{
    check_pair(plan, sheet)?;
    Ok(amended(plan, sheet))
}
