// A log block read: tested by itself in the order of the refusals, and its numbers.
ghost use Rattle.std.specs.Prelude.{◌≡◌, ◌≤◌, ◌<◌};
ghost use Rattle.lists.specs.All.{all_to};
ghost use Rattle.lists.specs.Refusals.{unless_number};
ghost use Rattle.words.specs.Word.{word};
ghost use Rattle.plan.specs.Ranges.{longest, within};
ghost use Rattle.logblock.specs.Layout.{most_jobs, age_word};
ghost use Rattle.logblock.specs.Reading.{jobs_in, entry_in, jobs_pass, rest_zero, own_number};

use crate::{Entry, layout};
use block::layout::SIZE;

// The number of jobs.
pub fn jobs_of(b: &[u8; SIZE]) -> u32
    ensures { result ≡ jobs_in b.now }
{
    words::word_at(b, layout::KIND_JOBS) / block::layout::HALF
}

// Entry i.
#[tactic(auto, unfolding(crate::specs::Reading::entry_in))]
pub fn entry_of(b: &[u8; SIZE], i: usize) -> Entry
    requires { i < most_jobs }
    ensures { result ≡ entry_in b.now i }
{
    let first = block::layout::ENTRY * i;
    Entry {
        guest: words::word_at(b, layout::GUEST + first),
        task: words::word_at(b, layout::TASK + first),
        age: words::word_at(b, layout::AGE + first),
    }
}

// Whether a number of jobs is in its range.
pub fn count_ok(jobs: u32) -> bool
    ensures { result ≡ within 1 most_jobs jobs }
{
    (1 <= jobs) & (jobs <= layout::MOST_JOBS)
}

// Whether an age is in its range.
pub fn age_ok(age: u32) -> bool
    ensures { result ≡ within 1 longest age }
{
    (1 <= age) & (age <= plan::LONGEST)
}

// Whether each of the first n ages is in its range.
#[tactic(auto, unfolding(lists::specs::All::all_to, crate::specs::Reading::entry_in))]
fn ages_ok(b: &[u8; SIZE], n: usize) -> bool
    requires { n ≤ most_jobs }
    ensures { result ≡ all_to (λ i. within 1 longest (word b.now (age_word i))) n }
{
    let mut ok = true;
    for i in 0..n {
        ok &= age_ok(entry_of(b, i).age);
    }
    ok
}

// Whether the number of jobs and each age are in their ranges.
#[tactic(auto, unfolding(crate::specs::Entries::jobs_ok))]
fn jobs_pass(b: &[u8; SIZE]) -> bool
    ensures { result ≡ jobs_pass b.now }
{
    let n = jobs_of(b);
    count_ok(n) && ages_ok(b, n as usize)
}

// Whether bytes 4-7 and those past the entries are zero.
fn rest_zero(b: &[u8; SIZE]) -> bool
    requires { jobs_in b.now ≤ most_jobs }
    ensures { result ≡ rest_zero b.now }
{
    let n = jobs_of(b) as usize;
    (words::word_at(b, layout::BLANK) == 0)
        & block::zero_between(
            b,
            layout::GUEST + block::layout::ENTRY * n,
            block::layout::CHECK,
        )
}

// Whether the block b is not refused by itself, or the number that it is refused by.
#[tactic(auto, unfolding(crate::specs::Reading::own_number, crate::specs::Entries::jobs_ok, lists::specs::Refusals::refusal, lists::specs::Refusals::unless))]
pub fn own_number(b: &[u8; SIZE]) -> Result<(), u32>
    ensures { result ≡ unless_number (own_number b.now) tt }
{
    if words::sum_words(b, block::layout::WORDS) != 0 {
        return Err(2);
    }
    if words::word_at(b, layout::KIND_JOBS) % block::layout::HALF != layout::LOG_KIND {
        return Err(3);
    }
    if !jobs_pass(b) {
        return Err(18);
    }
    if !rest_zero(b) {
        return Err(5);
    }
    Ok(())
}
