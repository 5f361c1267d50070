// A release's refusals, and what a release that is taken sets.
ghost use Rattle.std.specs.Prelude.{◌≡◌, true, not, ◌||◌, ◌<◌, eqb};
ghost use Rattle.lists.specs.Places.{nth};
ghost use Rattle.plan.specs.Ranges.{most_tasks, guest_ok, tasks_ok};
ghost use Rattle.plan.specs.Marks.{marked};
ghost use Rattle.refusals.specs.Aims.{AimsAt, Aims};

use crate::validating::examine;
use crate::{Aim, Lent, NO_COLUMNS};
use plan::{AsPlan, Guest};

// Whether task t of a guest with these marks may be released where the guest stands.
fn may_start(marks: u16, position: u32, t: usize) -> bool
    requires { t < most_tasks }
    ensures { result ≡ (not (marked marks t) || eqb position 0) }
{
    !plan::is_marked(marks, t) | (position == 0)
}

// The release of a task of guest g, which stands at place k: 8, 17, 9, 10, or what the task of that number gets.
#[tactic(auto, using(crate::proofs::Aims::in_order), unfolding(plan::specs::Marks::may_start))]
fn aim_at(g: &Guest, k: usize, task: u32, lent: &Lent) -> Result<Aim, u32>
    requires { (k < 8) × ((guest_ok g.now ≡ true) × (tasks_ok g.now ≡ true)) }
    ensures { AimsAt g.now k task (nth lent.now.position.now k) lent.now.rest.now
        lent.now.wait.now result }
{
    if !plan::has_task(g.tasks, task) {
        return Err(8);
    }
    let t = (task - 1) as usize;
    if !may_start(g.marks, lent.position[k], t) {
        return Err(17);
    }
    let at = k * 16 + t;
    if lent.wait[at] != 0 {
        return Err(9);
    }
    if lent.rest[at] != 0 {
        return Err(10);
    }
    Ok(Aim {
        at,
        run: plan::charged_run(g.run[t], g.charge) as u32,
        every: g.every[t],
    })
}

// The release of a task of a guest by its id: 14, 7, 8, 17, 9, 10, or what the task of that number gets.
#[tactic(auto, using(crate::proofs::Aims::by_id), unfolding(crate::specs::Aims::aim_number))]
pub fn aim_by_id<P: AsPlan>(plan: &P, lent: &Lent, guest: u32, task: u32) -> Result<Aim, u32>
    ensures { Aims (P.plan plan.now) lent.now.left.now lent.now.position.now
        lent.now.rest.now lent.now.wait.now lent.now.age.now guest task result }
{
    let mut columns = NO_COLUMNS;
    if !examine(plan, lent, &mut columns) {
        return Err(14);
    }
    let n = plan.count() as usize;
    let k = plan::place_of(&columns.ids, n, guest);
    if n <= k {
        return Err(7);
    }
    aim_at(&plan.guest(k), k, task, lent)
}
