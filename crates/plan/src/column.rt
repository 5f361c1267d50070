// The columns of a plan.
ghost use Rattle.plan.specs.Ranges.{most_guests};
ghost use Rattle.plan.specs.Filled.{ColumnsOf};

use crate::{AsPlan, Columns};

// The ids, capacities, periods, numbers of tasks and servers of all eight places.
pub fn columns_of<P: AsPlan>(plan: &P) -> Columns
    ensures { ColumnsOf (P.plan plan.now).guests most_guests result }
{
    let mut columns = Columns {
        ids: [0; 16],
        capacities: [0; 16],
        periods: [0; 16],
        tasks: [0; 16],
        deferrable: [0; 16],
    };
    for k in 0..8 {
        let g = plan.guest(k);
        columns.ids[k] = g.id;
        columns.capacities[k] = g.capacity;
        columns.periods[k] = g.period;
        columns.tasks[k] = g.tasks;
        columns.deferrable[k] = g.deferrable;
    }
    columns
}
