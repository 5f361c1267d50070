// The dispatcher's calls in place: a state lies in the caller's memory, its plan is lent as rows of words, and its arrays
// are lent to be changed. Each promises what the call by value does, of the arrays as they are left.
ghost use Rattle.std.specs.Prelude.{List, ℕ};
ghost use Rattle.plan.specs.First.{refused};
ghost use Rattle.rows.specs.Words.{plan_of};
ghost use Rattle.dispatcher.specs.Lent.{state_of};
ghost use Rattle.dispatcher.specs.Promises.{StartsIn, Releases};
ghost use Rattle.sheet.specs.Promises.{Sheets};
ghost use Rattle.coreshare.specs.Promises.{TellsTick, TellsRun};

use crate::{RunIn, TickIn};
use dispatcher::{Answer, release_in, run_in, start_in};
use plan::Refusal;
use rows::Rows;
use sheet::release_all_in;

#[unsafe(no_mangle)]
pub extern "C" fn cs_fresh_in(
    count: u32,
    rows: &[[u32; 54]; 8],
    left: &mut [u32; 8],
    position: &mut [u32; 8],
    rest: &mut [u32; 128],
    wait: &mut [u32; 128],
    age: &mut [u32; 128],
    usage: &mut [u64; 17],
) -> Refusal
    ensures { StartsIn
        (state_of (plan_of count rows.now) left.old position.old rest.old
        wait.old age.old usage.old)
        result
        (state_of (plan_of count rows.now) left.new position.new rest.new
        wait.new age.new usage.new) }
{
    let plan = Rows { count, rows };
    match start_in(&plan, left, position, rest, wait, age, usage) {
        Ok(()) => Refusal {
            number: 0,
            place: 0,
        },
        Err(refusal) => refusal,
    }
}

#[unsafe(no_mangle)]
pub extern "C" fn cs_release_in(
    count: u32,
    rows: &[[u32; 54]; 8],
    left: &[u32; 8],
    position: &[u32; 8],
    rest: &mut [u32; 128],
    wait: &mut [u32; 128],
    age: &mut [u32; 128],
    guest: u32,
    task: u32,
) -> u32
    ensures { (usage : List ℕ)
        → Releases
        (state_of (plan_of count rows.now) left.now position.now rest.old
        wait.old age.old usage)
        guest task
        (record {
          refusal = refused result 0;
          state =
              state_of (plan_of count rows.now) left.now position.now rest.new
              wait.new age.new usage;
        }) }
{
    let plan = Rows { count, rows };
    let released = release_in(&plan, left, position, rest, wait, age, guest, task);
    released.err().unwrap_or(0)
}

#[unsafe(no_mangle)]
pub extern "C" fn cs_sheet_in(
    count: u32,
    rows: &[[u32; 54]; 8],
    left: &[u32; 8],
    position: &[u32; 8],
    rest: &mut [u32; 128],
    wait: &mut [u32; 128],
    age: &mut [u32; 128],
    pairs: &[u64],
    answers: &mut [u32],
) -> u32
    ensures { (usage : List ℕ)
        → Sheets
        (state_of (plan_of count rows.now) left.now position.now rest.old
        wait.old age.old usage)
        pairs.now answers.old
        (record {
          refusal = refused result 0;
          state =
              state_of (plan_of count rows.now) left.now position.now rest.new
              wait.new age.new usage;
        })
        answers.new }
{
    let plan = Rows { count, rows };
    let released = release_all_in(&plan, left, position, rest, wait, age, pairs, answers);
    released.err().unwrap_or(0)
}

#[unsafe(no_mangle)]
pub extern "C" fn cs_tick_in(
    count: u32,
    rows: &[[u32; 54]; 8],
    left: &mut [u32; 8],
    position: &mut [u32; 8],
    rest: &mut [u32; 128],
    wait: &mut [u32; 128],
    age: &mut [u32; 128],
    usage: &mut [u64; 17],
) -> TickIn
    ensures { TellsTick
        (state_of (plan_of count rows.now) left.old position.old rest.old
        wait.old age.old usage.old)
        (record {
          refusal = refused result.number 0;
          answer = result.answer;
          state =
              state_of (plan_of count rows.now) left.new position.new rest.new
              wait.new age.new usage.new;
        }) }
{
    let plan = Rows { count, rows };
    // `TickIn` and `RunIn` are C's structs, so each outcome is told field by field.
    match run_in(&plan, left, position, rest, wait, age, usage, 1) {
        Ok(outcome) => TickIn {
            number: 0,
            answer: outcome.answer.into(),
        },
        Err(number) => TickIn {
            number,
            answer: Answer::Silent.into(),
        },
    }
}

#[unsafe(no_mangle)]
#[tactic(auto, unfolding(crate::specs::Told::run_told))]
pub extern "C" fn cs_run_in(
    count: u32,
    rows: &[[u32; 54]; 8],
    left: &mut [u32; 8],
    position: &mut [u32; 8],
    rest: &mut [u32; 128],
    wait: &mut [u32; 128],
    age: &mut [u32; 128],
    usage: &mut [u64; 17],
    ticks: u32,
) -> RunIn
    ensures { TellsRun
        (state_of (plan_of count rows.now) left.old position.old rest.old
        wait.old age.old usage.old)
        ticks
        (record {
          refusal = refused result.number 0;
          done = result.done;
          answer = result.answer;
          state =
              state_of (plan_of count rows.now) left.new position.new rest.new
              wait.new age.new usage.new;
        }) }
{
    let plan = Rows { count, rows };
    match run_in(&plan, left, position, rest, wait, age, usage, ticks) {
        Ok(outcome) => RunIn {
            number: 0,
            done: outcome.done,
            answer: outcome.answer.into(),
        },
        Err(number) => RunIn {
            number,
            done: 0,
            answer: Answer::Silent.into(),
        },
    }
}
