// The verdicts and the smallest capacity, told in numbers: by value, and in place of a plan that is lent as rows.
ghost use Rattle.rows.specs.Words.{plan_of};
ghost use Rattle.coreshare.specs.Promises.{TellsGuest, TellsTask, TellsPlan, TellsCapacity};

use crate::Verdict;
use plan::Plan;
use rows::Rows;

#[unsafe(no_mangle)]
pub extern "C" fn cs_guest_verdict(plan: Plan, id: u32) -> Verdict
    ensures { TellsGuest plan id result }
{
    verdict::guest_verdict(&plan, id).into()
}

#[unsafe(no_mangle)]
pub extern "C" fn cs_guest_verdict_in(count: u32, rows: &[[u32; 54]; 8], id: u32) -> Verdict
    ensures { TellsGuest (plan_of count rows.now) id result }
{
    verdict::guest_verdict(&Rows { count, rows }, id).into()
}

#[unsafe(no_mangle)]
pub extern "C" fn cs_task_verdict(plan: Plan, id: u32, task: u32) -> Verdict
    ensures { TellsTask plan id task result }
{
    verdict::task_verdict(&plan, id, task).into()
}

#[unsafe(no_mangle)]
pub extern "C" fn cs_task_verdict_in(
    count: u32,
    rows: &[[u32; 54]; 8],
    id: u32,
    task: u32,
) -> Verdict
    ensures { TellsTask (plan_of count rows.now) id task result }
{
    verdict::task_verdict(&Rows { count, rows }, id, task).into()
}

#[unsafe(no_mangle)]
pub extern "C" fn cs_accept(plan: Plan) -> Verdict
    ensures { TellsPlan plan result }
{
    verdict::accept(&plan).into()
}

#[unsafe(no_mangle)]
pub extern "C" fn cs_accept_in(count: u32, rows: &[[u32; 54]; 8]) -> Verdict
    ensures { TellsPlan (plan_of count rows.now) result }
{
    verdict::accept(&Rows { count, rows }).into()
}

#[unsafe(no_mangle)]
pub extern "C" fn cs_smallest_capacity(plan: Plan, id: u32) -> Verdict
    ensures { TellsCapacity plan id result }
{
    capacity::smallest_capacity(&plan, id).into()
}

#[unsafe(no_mangle)]
pub extern "C" fn cs_smallest_capacity_in(count: u32, rows: &[[u32; 54]; 8], id: u32) -> Verdict
    ensures { TellsCapacity (plan_of count rows.now) id result }
{
    capacity::smallest_capacity(&Rows { count, rows }, id).into()
}
