// What a sheet gathers once: each task's charged run and period at its place, and each guest's barred tasks.
ghost use Rattle.std.specs.Prelude.{◌≡◌, ◌<◌};
ghost use Rattle.plan.specs.Order.{plan_refusal};
ghost use Rattle.plan.specs.Ranges.{most_guests};
ghost use Rattle.jobs.specs.Rows.{ShortRuns, RowTo, JobsOf};
ghost use Rattle.jobs.specs.Barred.{barred_by, BarredTo};

use crate::Bars;
use plan::{AsPlan, Guest};

// The row of guest g, at place k: rows are put from the first on, so those before it stand.
#[tactic(auto, using(plan::proofs::Charge::charged_most))]
fn put_row(g: &Guest, k: usize, runs: &mut [u32; 128], periods: &mut [u32; 128])
    requires { (k < most_guests) × ShortRuns g.now }
    ensures { RowTo g.now.run g.now.every g.now.charge k g.now.tasks
        runs.old periods.old runs.new periods.new }
{
    for t in 0..g.tasks as usize {
        let at = k * 16 + t;
        runs[at] = plan::charged_run(g.run[t], g.charge) as u32;
        periods[at] = g.every[t];
    }
}

// The marks of a guest's tasks that may not be released where it stands.
fn barred_by(marks: u16, position: u32) -> u16
    ensures { result ≡ barred_by marks position }
{
    if 0 < position { marks } else { 0 }
}

// Puts the charged run and the period of each task of a plan in order at its place, and gives the barred tasks of each
// guest.
#[tactic(auto, using(plan::proofs::Order::plan_in, plan::proofs::Filled::filled_none))]
pub fn put_jobs<P: AsPlan>(
    plan: &P,
    position: &[u32; 8],
    runs: &mut [u32; 128],
    periods: &mut [u32; 128],
) -> Bars
    requires { (plan_refusal (P.plan plan.now)).number ≡ 0 }
    ensures { JobsOf (P.plan plan.now) runs.new periods.new
        × BarredTo (P.plan plan.now) position.now (P.plan plan.now).count result.barred result.clear }
{
    let mut barred = [0u16; 16];
    let mut clear = true;
    for k in 0..plan.count() as usize {
        let g = plan.guest(k);
        put_row(&g, k, runs, periods);
        barred[k] = barred_by(g.marks, position[k]);
        clear &= barred[k] == 0;
    }
    Bars { barred, clear }
}
