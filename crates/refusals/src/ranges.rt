// Refusal 14's ranges, over lent arrays: those of one guest with its tasks, and of a place past the guests.
ghost use Rattle.std.specs.Prelude.{◌≡◌, true, ℕ, ◌≤◌, ◌<◌};
ghost use Rattle.lists.specs.Choice.{pick};
ghost use Rattle.lists.specs.Places.{nth};
ghost use Rattle.lists.specs.All.{all_to};
ghost use Rattle.plan.specs.Ranges.{most_tasks, longest};
ghost use Rattle.plan.specs.Charge.{charged_run};
ghost use Rattle.arrays.specs.Ranges.{job_ok, no_job};
ghost use Rattle.refusals.specs.Rows.{job_in, guest_is_ok, row_is_blank};

use crate::Lent;
use plan::{Guest, LONGEST};

// A task's bound, or 0 at a place past the tasks: a select and no branch, so that the loop below takes several places
// at a time.
fn bound(used: bool, x: u32) -> u32
    ensures { result ≡ pick used x 0 }
{
    if used { x } else { 0 }
}

// The charged run of a task in its ranges, or 0.
#[tactic(auto, using(crate::proofs::Rows::charged_small))]
fn run_bound(used: bool, run: u32, charge: u16) -> u32
    requires { used ≡ true → run ≤ longest }
    ensures { result ≡ pick used (charged_run run charge) 0 }
{
    bound(used, plan::charged_run(bound(used, run), charge) as u32)
}

// The three numbers of a task, or of a place past the tasks.
#[tactic(auto, using(crate::proofs::Rows::leb_zero))]
fn job_ok(used: bool, run: u32, charge: u16, every: u32, rest: u32, wait: u32, age: u32) -> bool
    requires { used ≡ true → run ≤ longest }
    ensures { result ≡ pick used (job_ok (charged_run run charge) every rest wait age) (no_job rest wait age) }
{
    (rest <= run_bound(used, run, charge))
        & (wait <= bound(used, every))
        & (age <= bound(used, LONGEST))
}

// The 16 places of guest g, at place k. No early way out: a state in its ranges is tested whole anyway.
#[tactic(auto, unfolding(lists::specs::All::all_to))]
fn jobs_ok(lent: &Lent, g: &Guest, k: usize) -> bool
    requires { (k < 8) × ((t : ℕ) → t < g.now.tasks → nth g.now.run t ≤ longest) }
    ensures { result
        ≡ all_to
        (job_in lent.now.rest.now lent.now.wait.now lent.now.age.now g.now.run
        g.now.every g.now.charge k g.now.tasks)
        most_tasks }
{
    let many = g.tasks as usize;
    let base = k * 16;
    let mut ok = true;
    for t in 0..16 {
        let at = base + t;
        ok &= job_ok(
            t < many,
            g.run[t],
            g.charge,
            g.every[t],
            lent.rest[at],
            lent.wait[at],
            lent.age[at],
        );
    }
    ok
}

// Guest g at place k: its record, that it is Periodic, its two numbers and those of its 16 places.
#[tactic(auto, using(crate::proofs::Rows::record_ok), unfolding(crate::specs::Rows::guest_is_ok))]
pub fn guest_ok(g: &Guest, k: usize, lent: &Lent) -> bool
    requires { k < 8 }
    ensures { result
        ≡ guest_is_ok g.now k (nth lent.now.left.now k) (nth lent.now.position.now k)
        lent.now.rest.now lent.now.wait.now lent.now.age.now }
{
    if !plan::head_ok(g.id, g.capacity, g.period, g.tasks) {
        return false;
    }
    let many = g.tasks as usize;
    if !plan::tasks_ok(g.marks, g.period, &g.run, &g.every, &g.deadline, many) {
        return false;
    }
    let numbers = (lent.left[k] <= g.capacity) & (lent.position[k] < g.period);
    let server = (g.deferrable == 0) & numbers;
    server & jobs_ok(lent, g, k)
}

// The 16 places of row k, past the guests, and its two numbers.
#[tactic(auto, unfolding(lists::specs::All::all_to))]
pub fn blank_ok(k: usize, lent: &Lent) -> bool
    requires { k < 8 }
    ensures { result
        ≡ row_is_blank k (nth lent.now.left.now k) (nth lent.now.position.now k)
        lent.now.rest.now lent.now.wait.now lent.now.age.now }
{
    let base = k * 16;
    let mut ok = true;
    for t in 0..16 {
        let at = base + t;
        ok &= (lent.rest[at] == 0) & (lent.wait[at] == 0) & (lent.age[at] == 0);
    }
    ((lent.left[k] == 0) & (lent.position[k] == 0)) & ok
}
