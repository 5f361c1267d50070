// The least capacities, guest by guest.
ghost use Rattle.choice.specs.Capacities.{ComesTo};

use capacity::smallest_at;
use plan::{Plan, Refusal, start_check};
use response::servers_of;

// The plan with each guest's smallest capacity under those above at theirs, or the refusal: that of a fresh start, then
// 11 with the place of the first guest at which none works. The servers follow the plan, so that no search reads it
// again.
#[tactic(auto, using(crate::proofs::CapacitiesLaws::turn_few, crate::proofs::CapacitiesLaws::turn_seated))]
pub fn choose(mut plan: Plan) -> Result<Plan, Refusal>
    ensures { ComesTo plan result }
{
    start_check(&plan)?;
    let mut servers = servers_of(&plan);
    for k in 0..plan.count as usize {
        match smallest_at(&plan.guests[k], &servers, k) {
            Some(c) => {
                servers.capacities[k] = c;
                plan.guests[k].capacity = c;
            }
            None => {
                return Err(Refusal {
                    number: 11,
                    place: k as u32,
                });
            }
        }
    }
    Ok(plan)
}
