// The answer of a tick, made from what its step noted.
ghost use Rattle.std.specs.Prelude.{◌≡◌, ◌≤◌, ◌<◌};
ghost use Rattle.plan.specs.Ranges.{most_guests, most_tasks};
ghost use Rattle.dispatcher.specs.declared.Dispatcher.{Dispatcher};
ghost use Rattle.dispatcher.specs.Answer.{answer};
ghost use Rattle.dispatcher.specs.Lent.{Telling, Ending, Fits};

use crate::Answer;
use plan::AsPlan;
use steps::Turn;

// Who had a tick that finished no job, by the ids of the n guests.
pub fn unfinished(ids: &[u32; 16], n: usize, turn: Turn) -> Answer
    requires few { n ≤ most_guests }
    requires small { 0 < turn.had → turn.task < most_tasks }
    ensures { (d : Dispatcher) → Telling d ids.now n turn → result ≡ answer d }
{
    if n <= turn.guest {
        return Answer::Nobody;
    }
    let id = ids[turn.guest];
    if turn.had < 1 {
        return Answer::Idled(id);
    }
    Answer::Worked(id, (turn.task + 1) as u32)
}

// Who had a tick that finished a job, with the job's age and margin.
pub fn finished<P: AsPlan>(plan: &P, turn: Turn, age: &[u32; 128]) -> Answer
    requires { Fits (P.plan plan.now) turn age.now }
    ensures { (d : Dispatcher) → Ending d (P.plan plan.now) turn age.now → result ≡ answer d }
{
    let g = plan.guest(turn.guest);
    let grown = age[turn.guest * 16 + turn.task];
    Answer::Finished {
        guest: g.id,
        task: (turn.task + 1) as u32,
        age: grown,
        margin: margins::margin_of(g.deadline[turn.task], grown),
    }
}
