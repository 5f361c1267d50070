// Amendments tried against a standing plan: the pair of a plan and a sheet of blocks, both lent, answered for as the
// plan with those blocks in the place of its own. Plan and sheet go side by side, as the promises and C have them.
#![tactic(auto)]

ghost use Rattle.amendment.specs.Promises.{LocatesIn, FindsIn, GuestJudgedIn, TaskJudgedIn, AcceptsPair, SizedIn};

use pairs::check_for_answer;
use plan::Refusal;
use records::amended;
use verdict::{Acceptance, GuestVerdict, TaskVerdict};

mod pairs;
mod records;

pub use records::read; // Inner: for crates above that go on with the amended plan; none does yet.

// A refusal's number and place, or number 0 and a found block's place; `sheet` is 1 where the place is one in the
// sheet, 0 where it is one in the plan. It crosses to C as it is.
#[repr(C)]
#[derive(Clone, Copy)]
pub struct Located {
    pub number: u32,
    pub place: u32,
    pub sheet: u32,
}

// Where the block stands that counts for a guest, or the refusal: one struct for both, since C is handed it so.
pub fn find_place(plan: &[u8], sheet: &[u8], id: u32) -> Located
    ensures { LocatesIn plan.now sheet.now id result }
{
    if let Err(refused) = pairs::check_pair(plan, sheet) {
        return refused;
    }
    pairs::standing(
        blockfile::first_with(sheet, id),
        blockfile::first_with(plan, id),
    )
}

// The block that counts for a guest, as it stands in the sheet or in the plan; an empty part on a refusal.
pub fn find<'a>(plan: &'a [u8], sheet: &'a [u8], id: u32) -> &'a [u8]
    ensures { FindsIn plan.now sheet.now id result.now }
{
    // Number 0 says that a block was found, as C is told.
    let r = find_place(plan, sheet, id);
    if 0 < r.number {
        return &plan[..0];
    }
    if 0 < r.sheet {
        return blockfile::block_at(sheet, r.place as usize);
    }
    blockfile::block_at(plan, r.place as usize)
}

// The four answers check the pair first and make the amended plan where they borrow it: as part of a result it would be
// copied once more on the stack.

// The verdict of the guest with an id.
pub fn guest_verdict(plan: &[u8], sheet: &[u8], id: u32) -> Result<GuestVerdict, Refusal>
    ensures { GuestJudgedIn plan.now sheet.now id result }
{
    check_for_answer(plan, sheet)?;
    verdict::guest_verdict(&amended(plan, sheet), id)
}

// The verdict of task number `task`, from 1, of the guest with an id.
pub fn task_verdict(plan: &[u8], sheet: &[u8], id: u32, task: u32) -> Result<TaskVerdict, Refusal>
    ensures { TaskJudgedIn plan.now sheet.now id task result }
{
    check_for_answer(plan, sheet)?;
    verdict::task_verdict(&amended(plan, sheet), id, task)
}

// Whether all guests are fitted and all tasks met.
pub fn accept(plan: &[u8], sheet: &[u8]) -> Result<Acceptance, Refusal>
    ensures { AcceptsPair plan.now sheet.now result }
{
    check_for_answer(plan, sheet)?;
    verdict::accept(&amended(plan, sheet))
}

// The smallest capacity of the guest with an id.
pub fn smallest_capacity(plan: &[u8], sheet: &[u8], id: u32) -> Result<u32, Refusal>
    ensures { SizedIn plan.now sheet.now id result }
{
    check_for_answer(plan, sheet)?;
    capacity::smallest_capacity(&amended(plan, sheet), id)
}
