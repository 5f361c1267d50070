// The column of gaps that the equations of tasks are read off.
ghost use Rattle.std.specs.Prelude.{◌≡◌, ◌≤◌};
ghost use Rattle.equation.specs.System.{gap_for};
ghost use Rattle.plan.specs.Filled.{Filled};
ghost use Rattle.plan.specs.Marks.{marked};
ghost use Rattle.plan.specs.Ranges.{most_tasks};

use plan::is_marked;

// What a task meets of a gap: nothing where it is bound.
#[tactic(auto, unfolding(equation::specs::System::gap_for))]
fn gap_for(bound: bool, gap: u32) -> u32
    ensures { result ≡ gap_for bound gap }
{
    if bound { 0 } else { gap }
}

// The J of each of the first n tasks of a guest with such a gap. Without marks no task is asked.
pub fn gaps_of(marks: u16, gap: u32, n: usize) -> [u32; 16]
    requires { n ≤ most_tasks }
    ensures { Filled result (λ i. gap_for (marked marks i) gap) n }
{
    let mut r = [gap; 16];
    if marks < 1 {
        return r;
    }
    for i in 0..n {
        r[i] = gap_for(is_marked(marks, i), gap);
    }
    r
}
