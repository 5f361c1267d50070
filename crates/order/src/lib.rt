// The order that the tasks of a guest should have.
#![tactic(auto)]

ghost use Rattle.order.specs.Promises.{Orders};

use plan::{Plan, Refusal};

mod placing;
mod reordering;
mod sorting;
mod trying;

pub use placing::propose_in; // Inner: for the calls in place.

// The answer, as it crosses to C: the refusal, whose number is 0 where there is none, and the plan with the guest's
// tasks in the order proposed, or on a refusal as it was.
#[repr(C)]
#[derive(Clone, Copy)]
pub struct Ordered {
    pub refusal: Refusal,
    pub plan: Plan,
}

// The order proposed for the tasks of the guest with an id.
pub fn propose(mut plan: Plan, id: u32) -> Ordered
    ensures { Orders plan id result }
{
    match trying::settle(&plan, id) {
        Ok((k, g)) => {
            plan.guests[k] = g;
            Ordered {
                refusal: Refusal {
                    number: 0,
                    place: 0,
                },
                plan,
            }
        }
        Err(refusal) => Ordered { refusal, plan },
    }
}
