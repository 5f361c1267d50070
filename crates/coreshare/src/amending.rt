// The pair of a plan and an amendment sheet: the refusal, or the answer for the amended plan. As with plans, of what
// the finder gives the place alone crosses.
ghost use Rattle.amendment.specs.Promises.{LocatesIn};
ghost use Rattle.coreshare.specs.Promises.{TellsGuestIn, TellsTaskIn, TellsPair, TellsCapacityIn};

use crate::Verdict;
use amendment::Located;

#[unsafe(no_mangle)]
pub extern "C" fn cs_amended_find(plan: &[u8], sheet: &[u8], id: u32) -> Located
    ensures { LocatesIn plan.now sheet.now id result }
{
    amendment::find_place(plan, sheet, id)
}

#[unsafe(no_mangle)]
pub extern "C" fn cs_amended_guest_verdict(plan: &[u8], sheet: &[u8], id: u32) -> Verdict
    ensures { TellsGuestIn plan.now sheet.now id result }
{
    amendment::guest_verdict(plan, sheet, id).into()
}

#[unsafe(no_mangle)]
pub extern "C" fn cs_amended_task_verdict(plan: &[u8], sheet: &[u8], id: u32, task: u32) -> Verdict
    ensures { TellsTaskIn plan.now sheet.now id task result }
{
    amendment::task_verdict(plan, sheet, id, task).into()
}

#[unsafe(no_mangle)]
pub extern "C" fn cs_amended_accept(plan: &[u8], sheet: &[u8]) -> Verdict
    ensures { TellsPair plan.now sheet.now result }
{
    amendment::accept(plan, sheet).into()
}

#[unsafe(no_mangle)]
pub extern "C" fn cs_amended_smallest_capacity(plan: &[u8], sheet: &[u8], id: u32) -> Verdict
    ensures { TellsCapacityIn plan.now sheet.now id result }
{
    amendment::smallest_capacity(plan, sheet, id).into()
}
