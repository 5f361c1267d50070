// Each case of an answer told as a number.
ghost use Rattle.std.specs.Prelude.{◌≡◌};
ghost use Rattle.coreshare.specs.Told.{refusal_told, refusing, saying, guest_told, task_told, plan_told, capacity_told};

use crate::Verdict;
use plan::Refusal;
use verdict::{Acceptance, GuestVerdict, TaskVerdict};

// A refusal is told by its number and place.
impl From<Refusal> for Verdict {
    ghost from_gives = { λ r told. told ≡ refusing r.number r.place };

    fn from(r: Refusal) -> Verdict {
        Verdict {
            number: r.number,
            place: r.place,
            verdict: 0,
            ticks: 0,
        }
    }
}

// A verdict is told by its number, with its ticks.
fn say(verdict: u32, ticks: u32) -> Verdict
    ensures { result ≡ saying verdict ticks }
{
    Verdict {
        number: 0,
        place: 0,
        verdict,
        ticks,
    }
}

// A refusal, or none, as number and place: those of none are 0.
// No From: neither type is this crate's.
pub fn tell_refusal(outcome: Result<(), Refusal>) -> Refusal
    ensures { result ≡ refusal_told outcome }
{
    match outcome {
        Ok(()) => Refusal {
            number: 0,
            place: 0,
        },
        Err(refusal) => refusal,
    }
}

// A guest's verdict.
impl From<Result<GuestVerdict, Refusal>> for Verdict {
    ghost from_gives = { λ v told. told ≡ guest_told v };

    #[tactic(auto, unfolding(crate::specs::Told::guest_told))]
    fn from(v: Result<GuestVerdict, Refusal>) -> Verdict {
        match v {
            Err(r) => r.into(),
            Ok(GuestVerdict::Fitted(x)) => say(1, x),
            Ok(GuestVerdict::Unfit) => say(2, 0),
        }
    }
}

// A task's verdict.
impl From<Result<TaskVerdict, Refusal>> for Verdict {
    ghost from_gives = { λ v told. told ≡ task_told v };

    #[tactic(auto, unfolding(crate::specs::Told::task_told))]
    fn from(v: Result<TaskVerdict, Refusal>) -> Verdict {
        match v {
            Err(r) => r.into(),
            Ok(TaskVerdict::Met(r)) => say(1, r),
            Ok(TaskVerdict::UnmetAt(r)) => say(2, r),
            Ok(TaskVerdict::Unmet) => say(2, 0),
            Ok(TaskVerdict::Unjudged) => say(3, 0),
        }
    }
}

// The acceptance of a plan.
impl From<Result<Acceptance, Refusal>> for Verdict {
    ghost from_gives = { λ a told. told ≡ plan_told a };

    #[tactic(auto, unfolding(crate::specs::Told::plan_told))]
    fn from(a: Result<Acceptance, Refusal>) -> Verdict {
        match a {
            Err(r) => r.into(),
            Ok(Acceptance::Accepted) => say(1, 0),
            Ok(Acceptance::NotAccepted) => say(2, 0),
        }
    }
}

// The smallest capacity.
impl From<Result<u32, Refusal>> for Verdict {
    ghost from_gives = { λ a told. told ≡ capacity_told a };

    #[tactic(auto, unfolding(crate::specs::Told::capacity_told))]
    fn from(a: Result<u32, Refusal>) -> Verdict {
        match a {
            Err(r) => r.into(),
            Ok(ticks) => say(1, ticks),
        }
    }
}
