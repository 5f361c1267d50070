// Fresh start: the records' order, then 23, then a state with nothing in it. A refusal gives the state of a blank plan by
// value, and the state as it was in place: two ends of `start_check`.
ghost use Rattle.std.specs.Prelude.{◌≡◌, ◌<◌, IfErr};
ghost use Rattle.dispatcher.specs.Fresh.{idle};
ghost use Rattle.dispatcher.specs.InPlace.{refusal_of};
ghost use Rattle.dispatcher.specs.Lent.{state_of};
ghost use Rattle.dispatcher.specs.Promises.{Starts, StartsIn};

use crate::{Dispatcher, Started};
use plan::{AsPlan, Plan, Refusal, start_check};

// No job, no wait and no age in any of the 128 places, all positions 0, no capacity left, no tick counted.
#[tactic(auto, unfolding(crate::specs::Fresh::idle))]
fn idle_of(plan: Plan) -> Dispatcher
    ensures { result ≡ idle plan }
{
    Dispatcher {
        plan,
        left: [0; 8],
        position: [0; 8],
        rest: [0; 128],
        wait: [0; 128],
        age: [0; 128],
        usage: [0; 17],
    }
}

// A fresh start in place, over a state that is lent beside its plan: a refused one leaves the state as it was.
pub fn start_in<P: AsPlan>(
    plan: &P,
    left: &mut [u32; 8],
    position: &mut [u32; 8],
    rest: &mut [u32; 128],
    wait: &mut [u32; 128],
    age: &mut [u32; 128],
    usage: &mut [u64; 17],
) -> Result<(), Refusal>
    ensures started { StartsIn
        (state_of (P.plan plan.now) left.old position.old rest.old
        wait.old age.old usage.old)
        (refusal_of result)
        (state_of (P.plan plan.now) left.new position.new rest.new
        wait.new age.new usage.new) }
    ensures number { IfErr result (λ r. 0 < r.number) }
{
    start_check(plan)?;
    *left = [0; 8];
    *position = [0; 8];
    *rest = [0; 128];
    *wait = [0; 128];
    *age = [0; 128];
    *usage = [0; 17];
    Ok(())
}

impl Dispatcher {
    pub fn fresh(plan: Plan) -> Started
        ensures { Starts plan result }
    {
        if let Err(refusal) = start_check(&plan) {
            return Started {
                refusal,
                state: idle_of(plan::blank_plan()),
            };
        }
        Started {
            refusal: Refusal {
                number: 0,
                place: 0,
            },
            state: idle_of(plan),
        }
    }
}
