// A run of ticks: its checks once, then steps over the state's arrays.
ghost use Rattle.std.specs.Prelude.{◌<◌, IfErr};
ghost use Rattle.dispatcher.specs.InPlace.{ran_in};
ghost use Rattle.dispatcher.specs.Lent.{state_of};
ghost use Rattle.dispatcher.specs.Promises.{Runs};

use crate::answering::{finished, unfinished};
use crate::{Answer, Dispatcher, Ran, RunOutcome};
use plan::{AsPlan, Refusal};
use refusals::{Lent, NO_COLUMNS, examine};
use steps::steps;

// The longest run, in ticks.
const LONGEST_RUN: u32 = 1000000;

// What a run gives that does no tick, refused or not.
pub const NO_TICK: RunOutcome = RunOutcome {
    done: 0,
    answer: Answer::Silent,
};

// A run in place, over a state that is lent beside its plan: where it is refused the state comes back as it was. The
// arrays are lent one by one, as those of `steps::steps` are.
pub fn run_in<P: AsPlan>(
    plan: &P,
    left: &mut [u32; 8],
    position: &mut [u32; 8],
    rest: &mut [u32; 128],
    wait: &mut [u32; 128],
    age: &mut [u32; 128],
    usage: &mut [u64; 17],
    ticks: u32,
) -> Result<RunOutcome, u32>
    ensures ran { Runs
        (state_of (P.plan plan.now) left.old position.old rest.old
        wait.old age.old usage.old)
        ticks
        (ran_in result
        (state_of (P.plan plan.now) left.new position.new rest.new
        wait.new age.new usage.new)) }
    ensures number { IfErr result (λ n. 0 < n) }
{
    let lent = Lent {
        left,
        position,
        rest,
        wait,
        age,
    };
    let mut columns = NO_COLUMNS;
    if !examine(plan, &lent, &mut columns) {
        return Err(14);
    }
    if LONGEST_RUN < ticks {
        return Err(13);
    }
    let n = plan.count() as usize;
    let went = steps(left, position, rest, wait, age, usage, &columns, n, ticks);
    if went.done < 1 {
        return Ok(NO_TICK);
    }
    if went.turn.had == 1 {
        return Ok(RunOutcome {
            done: went.done,
            answer: finished(plan, went.turn, age),
        });
    }
    Ok(RunOutcome {
        done: went.done,
        answer: unfinished(&columns.ids, n, went.turn),
    })
}

impl Dispatcher {
    pub fn run(mut self, ticks: u32) -> Ran
        ensures { Runs self ticks result }
    {
        let ran = run_in(
            &self.plan,
            &mut self.left,
            &mut self.position,
            &mut self.rest,
            &mut self.wait,
            &mut self.age,
            &mut self.usage,
            ticks,
        );
        let outcome = ran.unwrap_or(NO_TICK);
        Ran {
            refusal: Refusal {
                number: ran.err().unwrap_or(0),
                place: 0,
            },
            done: outcome.done,
            answer: outcome.answer,
            state: self,
        }
    }
}
