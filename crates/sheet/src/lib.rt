// A sheet of releases: many tasks are released in one call, and the state is checked once.
#![tactic(auto)]

ghost use Rattle.arrays.specs.Place.{Small};
ghost use Rattle.jobs.specs.Barred.{Clear};
ghost use Rattle.sheet.specs.Promises.{Sheets};

use dispatcher::{Dispatcher, Released};
use jobs::Bars;
use plan::{Columns, Refusal};

mod pairs;
mod placing;

pub use placing::release_all_in; // Inner: for the calls in place.

// What a sheet looks at, gathered once: the columns of the plan's n guests, the tasks that may not be released where the
// guests stand, and what a taken release sets at each place.
#[derive(Clone, Copy)]
pub struct Gathered<'a> {
    n: usize,
    columns: &'a Columns,
    bars: &'a Bars,
    runs: &'a [u32; 128],
    periods: &'a [u32; 128],
    ghost small: { Small n columns.now.tasks },
    ghost nothing: { Clear bars.now.clear n bars.now.barred },
}

// Releases the pairs one by one in order, and answers each in its place; a sheet refused whole changes nothing.
pub fn release_all(mut state: Dispatcher, pairs: &[u64], answers: &mut [u32]) -> Released
    ensures { Sheets state pairs.now answers.old result answers.new }
{
    let refused = release_all_in(
        &state.plan,
        &state.left,
        &state.position,
        &mut state.rest,
        &mut state.wait,
        &mut state.age,
        pairs,
        answers,
    );
    let number = refused.err().unwrap_or(0);
    Released {
        refusal: Refusal { number, place: 0 },
        state,
    }
}
