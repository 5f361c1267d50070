// What a log is counted by, gathered once from a plan: its columns, and each task's deadline at its line.
ghost use Rattle.std.specs.Prelude.{◌≡◌, ◌≤◌, ◌<◌, length};
ghost use Rattle.plan.specs.Order.{plan_refusal};
ghost use Rattle.plan.specs.Ranges.{most_guests, most_tasks};
ghost use Rattle.statement.specs.Lines.{most_lines};
ghost use Rattle.statement.specs.Lent.{DeadlinesOf, DeadlinesTo, PlanColumns};

use plan::{Columns, Plan};

// A plan in order as a log is counted by it: its columns, and the deadline of each task at the task's line.
#[derive(Clone, Copy)]
pub struct Gathered<'a> {
    pub plan: &'a Plan,
    pub columns: Columns,
    pub deadlines: [u32; 128],
    pub ghost fits: { PlanColumns plan.now columns deadlines },
}

// The deadlines of a guest put at its lines, those of the guests before it as they were.
fn put_row(deadline: &[u32; 16], many: usize, k: usize, deadlines: &mut [u32; 128])
    requires { (k < most_guests) × ((many ≤ most_tasks) × (length deadlines.old ≡ most_lines)) }
    ensures { DeadlinesTo deadline.now k many deadlines.old deadlines.new }
{
    let base = k * 16;
    for t in 0..many {
        deadlines[base + t] = deadline[t];
    }
}

// The deadline of each task of a plan at its line.
fn deadlines_of(plan: &Plan) -> [u32; 128]
    requires { (plan_refusal plan.now).number ≡ 0 }
    ensures { DeadlinesOf plan.now plan.now.count result }
{
    let mut deadlines = [0u32; 128];
    for k in 0..plan.count as usize {
        let g = &plan.guests[k];
        put_row(&g.deadline, g.tasks as usize, k, &mut deadlines);
    }
    deadlines
}

// A plan in order gathered. That it is in order is known of the call, and no type of a checked plan crosses crates.
pub fn gather(plan: &Plan) -> Gathered
    requires { (plan_refusal plan.now).number ≡ 0 }
    ensures { result.plan.now ≡ plan.now }
{
    let columns = plan::columns_of(plan);
    let deadlines = deadlines_of(plan);
    Gathered {
        plan,
        columns,
        deadlines,
    }
}
