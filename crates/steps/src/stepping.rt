// One tick over lent arrays: it copies neither record nor array, so a run of ticks costs no more than its loops.
// The arrays are lent one by one: a struct of references was tried, and what its lender finds there was not proved. So
// are they in all calls in place, to which C lends them so.
ghost use Rattle.arrays.specs.Place.{Small};
ghost use Rattle.steps.specs.Step.{Serves, Steps};

use crate::Turn;
use arrays::{advance, fall, grow, holder, refill, tally, worker};
use plan::Columns;

// The first guest with capacity left has the tick, inside it the first task with run left: each loses one.
fn serve(left: &mut [u32; 8], rest: &mut [u32; 128], columns: &Columns, n: usize) -> Turn
    requires { Small n columns.now.tasks }
    ensures { Serves n columns.now.tasks left.old rest.old left.new rest.new result }
{
    let k = holder(left, n);
    if n <= k {
        return Turn {
            guest: k,
            task: 0,
            had: 0,
        };
    }
    left[k] -= 1;
    let many = columns.tasks[k] as usize;
    let t = worker(rest, k, many);
    if many <= t {
        return Turn {
            guest: k,
            task: t,
            had: 0,
        };
    }
    let at = k * 16 + t;
    let had = rest[at];
    rest[at] = had - 1;
    Turn {
        guest: k,
        task: t,
        had,
    }
}

// One tick. Serving comes last, since the ages go by the runs left at its start.
// Past the n guests no job runs or waits, so no age or wait there moves.
pub fn step(
    left: &mut [u32; 8],
    position: &mut [u32; 8],
    rest: &mut [u32; 128],
    wait: &mut [u32; 128],
    age: &mut [u32; 128],
    usage: &mut [u64; 17],
    columns: &Columns,
    n: usize,
) -> Turn
    requires { Small n columns.now.tasks }
    ensures { Steps n
        columns.now.capacities columns.now.periods columns.now.tasks
        (record {
          left = left.old;
          position = position.old;
          rest = rest.old;
          wait = wait.old;
          age = age.old;
          usage = usage.old;
        })
        (record {
          left = left.new;
          position = position.new;
          rest = rest.new;
          wait = wait.new;
          age = age.new;
          usage = usage.new;
        })
        result }
{
    refill(left, position, columns, n);
    grow(age, rest, n);
    fall(wait, n);
    advance(position, columns, n);
    let turn = serve(left, rest, columns, n);
    tally(usage, n, turn.guest, turn.had);
    turn
}
