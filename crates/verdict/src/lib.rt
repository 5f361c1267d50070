// The verdicts of guests and tasks, and the acceptance of a plan.
#![tactic(auto)]

ghost use Rattle.verdict.specs.Promises.{GuestJudged, TaskJudged, Accepts};

use judge::{guest_says, judge_task};
use plan::{AsPlan, Refusal, check, has_task};
use response::{Seat, guest_accepted, response_at, seat_of, servers_of};

mod judge;

// The verdict of a guest: fitted with its response; unfit. No Option, whose `None` would read as no verdict.
#[derive(Clone, Copy, PartialEq, Eq)]
pub enum GuestVerdict {
    Fitted(u32),
    Unfit,
}

// The verdict of a task: met with its response; unmet with its response, or with none up to the task's period;
// unjudged.
#[derive(Clone, Copy, PartialEq, Eq)]
pub enum TaskVerdict {
    Met(u32),
    UnmetAt(u32),
    Unmet,
    Unjudged,
}

// The acceptance of a plan: accepted; not accepted.
#[derive(Clone, Copy, PartialEq, Eq)]
pub enum Acceptance {
    Accepted,
    NotAccepted,
}

// The verdict of the guest with an id.
pub fn guest_verdict<P: AsPlan>(plan: &P, id: u32) -> Result<GuestVerdict, Refusal>
    ensures { GuestJudged (P.plan plan.now) id result }
{
    let Seat { place, servers } = seat_of(plan, id)?;
    Ok(guest_says(response_at(&servers, place)))
}

// The verdict of task number `task`, from 1, of the guest with an id.
pub fn task_verdict<P: AsPlan>(plan: &P, id: u32, task: u32) -> Result<TaskVerdict, Refusal>
    ensures { TaskJudged (P.plan plan.now) id task result }
{
    let seat = seat_of(plan, id)?;
    let g = plan.guest(seat.place);
    if !has_task(g.tasks, task) {
        return Err(Refusal {
            number: 8,
            place: 0,
        });
    }
    Ok(judge_task(&seat.servers, seat.place, &g, (task - 1) as usize))
}

// Whether all guests are fitted and all tasks met.
pub fn accept<P: AsPlan>(plan: &P) -> Result<Acceptance, Refusal>
    ensures { Accepts (P.plan plan.now) result }
{
    check(plan)?;
    let servers = servers_of(plan);
    for k in 0..plan.count() as usize {
        if !guest_accepted(&servers, k, &plan.guest(k)) {
            return Ok(Acceptance::NotAccepted);
        }
    }
    Ok(Acceptance::Accepted)
}
