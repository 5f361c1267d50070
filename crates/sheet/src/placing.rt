// A sheet in place.
ghost use Rattle.std.specs.Prelude.{◌≡◌, List, [], ◌∷◌, ℕ, ◌<◌, leb, IfErr};
ghost use Rattle.lists.specs.Refusals.{refusal, unless_number, ◌or_refuse◌};
ghost use Rattle.dispatcher.specs.InPlace.{released_in};
ghost use Rattle.dispatcher.specs.Lent.{state_of};
ghost use Rattle.sheet.specs.Sheet.{most_pairs};
ghost use Rattle.sheet.specs.Promises.{Sheets};

use crate::Gathered;
use crate::pairs::take_all;
use jobs::put_jobs;
use plan::AsPlan;
use refusals::{Lent, NO_COLUMNS, examine};

// The most pairs on a sheet.
const MOST_PAIRS: usize = 256;

// Whether a sheet has too many pairs, 15, or too few places for its answers, 12.
#[tactic(auto, using(refusals::proofs::Aims::tests))]
fn room_for(pairs: usize, room: usize) -> Result<(), u32>
    ensures { result
        ≡ unless_number (refusal (leb pairs most_pairs or_refuse 15 ∷ leb pairs room or_refuse 12 ∷ [])) tt }
{
    if MOST_PAIRS < pairs {
        return Err(15);
    }
    if room < pairs {
        return Err(12);
    }
    Ok(())
}

// A sheet in place, over a state that is lent beside its plan: releases the pairs one by one in order, and answers each
// in its place. Where a number refuses it whole nothing has changed.
pub fn release_all_in<P: AsPlan>(
    plan: &P,
    left: &[u32; 8],
    position: &[u32; 8],
    rest: &mut [u32; 128],
    wait: &mut [u32; 128],
    age: &mut [u32; 128],
    pairs: &[u64],
    answers: &mut [u32],
) -> Result<(), u32>
    ensures released { (usage : List ℕ)
        → Sheets
        (state_of (P.plan plan.now) left.now position.now rest.old
        wait.old age.old usage)
        pairs.now answers.old
        (released_in result
        (state_of (P.plan plan.now) left.now position.now rest.new
        wait.new age.new usage))
        answers.new }
    ensures number { IfErr result (λ n. 0 < n) }
{
    let lent = Lent {
        left,
        position,
        rest,
        wait,
        age,
    };
    let mut columns = NO_COLUMNS;
    if !examine(plan, &lent, &mut columns) {
        return Err(14);
    }
    room_for(pairs.len(), answers.len())?;
    let mut runs = [0u32; 128];
    let mut periods = [0u32; 128];
    let bars = put_jobs(plan, position, &mut runs, &mut periods);
    let sheet = Gathered {
        n: plan.count() as usize,
        columns: &columns,
        bars: &bars,
        runs: &runs,
        periods: &periods,
    };
    take_all(pairs, answers, &sheet, rest, wait, age);
    Ok(())
}
