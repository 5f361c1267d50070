// Ticks one after the other over lent arrays.
ghost use Rattle.arrays.specs.Place.{Small};
ghost use Rattle.steps.specs.Step.{StepsOn};

use crate::stepping::step;
use crate::{Turn, Went};
use plan::Columns;

// Steps until one finishes a job or the number is used up.
pub fn steps(
    left: &mut [u32; 8],
    position: &mut [u32; 8],
    rest: &mut [u32; 128],
    wait: &mut [u32; 128],
    age: &mut [u32; 128],
    usage: &mut [u64; 17],
    columns: &Columns,
    n: usize,
    ticks: u32,
) -> Went
    requires { Small n columns.now.tasks }
    ensures { StepsOn n
        columns.now.capacities columns.now.periods columns.now.tasks
        (record {
          left = left.old;
          position = position.old;
          rest = rest.old;
          wait = wait.old;
          age = age.old;
          usage = usage.old;
        })
        (record {
          left = left.new;
          position = position.new;
          rest = rest.new;
          wait = wait.new;
          age = age.new;
          usage = usage.new;
        })
        ticks result }
{
    let mut turn = Turn {
        guest: 0,
        task: 0,
        had: 0,
    };
    for done in 0..ticks {
        turn = step(left, position, rest, wait, age, usage, columns, n);
        if turn.had == 1 {
            return Went {
                done: done + 1,
                turn,
            };
        }
    }
    Went { done: ticks, turn }
}
