// The dispatcher's calls. A fresh start and a release cross as they are; a tick's answer is told in numbers.
ghost use Rattle.std.specs.Prelude.{◌≡◌};
ghost use Rattle.dispatcher.specs.Promises.{Starts, Releases};
ghost use Rattle.sheet.specs.Promises.{Sheets};
ghost use Rattle.coreshare.specs.Told.{told};
ghost use Rattle.coreshare.specs.Promises.{TellsTick, TellsRun};

use crate::{Run, Tick, Told};
use dispatcher::{Answer, Dispatcher, Released, Started};
use plan::Plan;

// What is told of no tick.
const NOTHING: Told = Told {
    kind: 0,
    guest: 0,
    task: 0,
    age: 0,
    margin: 0,
};

// A tick's answer is told as a number for its case, with the case's values.
impl From<Answer> for Told {
    ghost from_gives = { λ answer r. r ≡ told answer };

    #[tactic(auto, unfolding(crate::specs::Told::told))]
    fn from(answer: Answer) -> Told {
        match answer {
            Answer::Silent => NOTHING,
            Answer::Nobody => Told { kind: 1, ..NOTHING },
            Answer::Idled(guest) => Told {
                kind: 2,
                guest,
                ..NOTHING
            },
            Answer::Worked(guest, task) => Told {
                kind: 3,
                guest,
                task,
                ..NOTHING
            },
            Answer::Finished {
                guest,
                task,
                age,
                margin,
            } => Told {
                kind: 4,
                guest,
                task,
                age,
                margin,
            },
        }
    }
}

#[unsafe(no_mangle)]
pub extern "C" fn cs_fresh(plan: Plan) -> Started
    ensures { Starts plan result }
{
    Dispatcher::fresh(plan)
}

#[unsafe(no_mangle)]
pub extern "C" fn cs_release(state: Dispatcher, guest: u32, task: u32) -> Released
    ensures { Releases state guest task result }
{
    state.release(guest, task)
}

#[unsafe(no_mangle)]
pub extern "C" fn cs_sheet(state: Dispatcher, pairs: &[u64], answers: &mut [u32]) -> Released
    ensures { Sheets state pairs.now answers.old result answers.new }
{
    sheet::release_all(state, pairs, answers)
}

#[unsafe(no_mangle)]
#[tactic(auto, unfolding(crate::specs::Told::tick_told))]
pub extern "C" fn cs_tick(state: Dispatcher) -> Tick
    ensures { TellsTick state result }
{
    let ticked = state.tick();
    Tick {
        refusal: ticked.refusal,
        answer: ticked.answer.into(),
        state: ticked.state,
    }
}

#[unsafe(no_mangle)]
#[tactic(auto, unfolding(crate::specs::Told::run_told))]
pub extern "C" fn cs_run(state: Dispatcher, ticks: u32) -> Run
    ensures { TellsRun state ticks result }
{
    let ran = state.run(ticks);
    Run {
        refusal: ran.refusal,
        done: ran.done,
        answer: ran.answer.into(),
        state: ran.state,
    }
}
