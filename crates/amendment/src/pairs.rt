// What a pair is refused by, and where a guest's block stands. It meets specs/Pair.antt and specs/Finder.antt, and of
// specs/Verdict.antt the refusal of an answer.
ghost use Rattle.std.specs.Prelude.{◌≡◌, ◌≤◌, ◌<◌};
ghost use Rattle.plan.specs.First.{first_refused, unless_refused};
ghost use Rattle.plan.specs.Ranges.{most_guests};
ghost use Rattle.blockfile.specs.File.{blocks_in};
ghost use Rattle.amendment.specs.Pair.{known_at, foreign_number, sheet_refusal, pair_refusal, unless_located};
ghost use Rattle.amendment.specs.Finder.{standing};
ghost use Rattle.amendment.specs.Verdict.{answer_refusal};

use crate::Located;
use block::layout::SIZE;
use plan::Refusal;

// Whether the sheet's block k has the id of a guest of the plan, and that guest's place.
#[tactic(auto, unfolding(crate::specs::Pair::is_found_at))]
fn known_at(plan: &[u8], sheet: &[u8], k: usize) -> bool
    requires { (blocks_in plan.now ≤ most_guests) × (k < blocks_in sheet.now) }
    ensures { result ≡ known_at plan.now sheet.now k }
{
    match blockfile::first_with(plan, blockfile::id_at(sheet, k)) {
        Some(place) => place == block::place_of(blockfile::block_at(sheet, k)),
        None => false,
    }
}

// Whether each of the sheet's n blocks is of a guest of the plan, or else the first that is of none.
fn check_known(plan: &[u8], sheet: &[u8], n: usize) -> Result<(), Refusal>
    requires { (blocks_in plan.now ≤ most_guests) × ((n ≤ most_guests) × (n ≤ blocks_in sheet.now)) }
    ensures { result ≡ unless_refused (first_refused (foreign_number plan.now sheet.now) n 0) tt }
{
    for k in 0..n {
        if !known_at(plan, sheet, k) {
            return Err(Refusal {
                number: 16,
                place: k as u32,
            });
        }
    }
    Ok(())
}

// Whether the sheet is not refused, or else its refusal.
fn check_sheet(plan: &[u8], sheet: &[u8]) -> Result<(), Refusal>
    requires { blocks_in plan.now ≤ most_guests }
    ensures { result ≡ unless_refused (sheet_refusal plan.now sheet.now) tt }
{
    blockfile::check_blocks(sheet, false)?;
    check_known(plan, sheet, sheet.len() / SIZE)
}

// A refusal at a place in the plan, or in the sheet where `sheet` is 1.
fn located(r: Refusal, sheet: u32) -> Located
    ensures { result ≡ record { number = r.number; place = r.place; sheet = sheet } }
{
    Located {
        number: r.number,
        place: r.place,
        sheet,
    }
}

// Whether the pair is not refused, or else its refusal.
pub fn check_pair(plan: &[u8], sheet: &[u8]) -> Result<(), Located>
    ensures { result ≡ unless_located (pair_refusal plan.now sheet.now) tt }
{
    if let Err(r) = blockfile::check_blocks(plan, true) {
        return Err(located(r, 0));
    }
    if let Err(r) = check_sheet(plan, sheet) {
        return Err(located(r, 1));
    }
    Ok(())
}

// The same for an answer, whose refusal does not say whether its place is one in the sheet.
pub fn check_for_answer(plan: &[u8], sheet: &[u8]) -> Result<(), Refusal>
    ensures { result ≡ unless_refused (answer_refusal plan.now sheet.now) tt }
{
    check_pair(plan, sheet).map_err(|Located { number, place, .. }| Refusal { number, place })
}

// Where a block was found, in the sheet if it has one; refusal 7 where in neither.
// One struct for both cases, as the definition has it and C is handed it.
#[tactic(auto, unfolding(crate::specs::Finder::standing))]
pub fn standing(sheet: Option<u32>, plan: Option<u32>) -> Located
    ensures { result ≡ standing sheet plan }
{
    match sheet {
        Some(j) => Located {
            number: 0,
            place: j,
            sheet: 1,
        },
        None => match plan {
            Some(k) => Located {
                number: 0,
                place: k,
                sheet: 0,
            },
            None => Located {
                number: 7,
                place: 0,
                sheet: 0,
            },
        },
    }
}
