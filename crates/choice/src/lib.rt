// Choosing a plan's numbers: the least capacities at which it is accepted.
#![tactic(auto)]

ghost use Rattle.choice.specs.Promises.{ChoosesCapacities};

use plan::{Plan, Refusal};

mod capacities;

// The answer, as it crosses to C: the refusal, whose number is 0 where there is none, and the plan with the numbers
// chosen, or on a refusal as it was.
#[repr(C)]
#[derive(Clone, Copy)]
pub struct Chosen {
    pub refusal: Refusal,
    pub plan: Plan,
}

// The plan with each guest's capacity the smallest that works, from the highest guest down.
pub fn least_capacities(plan: Plan) -> Chosen
    ensures { ChoosesCapacities plan result }
{
    match capacities::choose(plan) {
        Ok(plan) => Chosen {
            refusal: Refusal {
                number: 0,
                place: 0,
            },
            plan,
        },
        Err(refusal) => Chosen { refusal, plan },
    }
}
