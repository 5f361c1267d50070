// Plan files: read into records, records checked, a guest's block written, and found by the guest's id.
#![tactic(auto)]

ghost use Rattle.planfile.specs.Promises.{Reads};

use block::layout;
use plan::{Plan, Refusal};

mod finding;

pub use blockwriter::write;
pub use finding::{find, find_place};
pub use plan::check;

// A plan read, as it crosses to C: the refusal, number 0 for none, and the records, or on a refusal zeros.
#[repr(C)]
#[derive(Clone, Copy)]
pub struct Reading {
    pub refusal: Refusal,
    pub plan: Plan,
}

// Reads a plan's bytes: 1, then block by block 2, 3, 4, 5, 6.
pub fn read(bytes: &[u8]) -> Result<Plan, Refusal>
    ensures { Reads bytes.now result }
{
    blockfile::check_blocks(bytes, true)?;
    let count = bytes.len() / layout::SIZE;
    let guests = blockfile::records_of(bytes, count);
    Ok(Plan {
        count: count as u32,
        guests,
    })
}
