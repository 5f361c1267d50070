// A plan's numbers chosen. The outcome crosses as it is.
ghost use Rattle.choice.specs.Promises.{ChoosesCapacities};

use choice::Chosen;
use plan::Plan;

#[unsafe(no_mangle)]
pub extern "C" fn cs_least_capacities(plan: Plan) -> Chosen
    ensures { ChoosesCapacities plan result }
{
    choice::least_capacities(plan)
}
