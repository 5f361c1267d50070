// A log block written: the entries tested, and their words put straight into the lent buffer.
ghost use Rattle.std.specs.Prelude.{◌≡◌, ◌++◌, ◌≤◌, length, drop};
ghost use Rattle.lists.specs.All.{all_to};
ghost use Rattle.lists.specs.Refusals.{unless_number};
ghost use Rattle.plan.specs.Ranges.{longest, within};
ghost use Rattle.block.specs.Layout.{block_size};
ghost use Rattle.logblock.specs.Layout.{most_jobs};
ghost use Rattle.logblock.specs.Entries.{entry_at};
ghost use Rattle.logblock.specs.Writing.{log_of, log_number};

use crate::reader::{age_ok, count_ok};
use crate::{Entries, layout};

// Whether each of the first n ages is in its range. The reader asks it of bytes; one over either form would need a trait
// for this loop alone.
#[tactic(auto, unfolding(lists::specs::All::all_to))]
fn ages_in(jobs: &Entries, n: usize) -> bool
    requires { n ≤ most_jobs }
    ensures { result ≡ all_to (λ i. within 1 longest (entry_at jobs.now i).age) n }
{
    let mut ok = true;
    for entry in &jobs.entries[..n] {
        ok &= age_ok(entry.age);
    }
    ok
}

// Whether the writer does not refuse, or the number that it refuses by, for a buffer of so many bytes.
#[tactic(auto, unfolding(crate::specs::Writing::log_number, crate::specs::Entries::jobs_ok, lists::specs::Refusals::refusal, lists::specs::Refusals::unless))]
pub fn log_number(jobs: &Entries, size: usize) -> Result<(), u32>
    ensures { result ≡ unless_number (log_number jobs.now size) tt }
{
    if size < block::layout::SIZE {
        return Err(12);
    }
    if !count_ok(jobs.count) || !ages_in(jobs, jobs.count as usize) {
        return Err(18);
    }
    Ok(())
}

// The log block of the entries put into the first 512 bytes.
pub fn put_log(jobs: &Entries, buf: &mut [u8])
    requires { (block_size ≤ length buf.old) × (jobs.now.count ≤ most_jobs) }
    ensures { buf.new ≡ log_of jobs.now ++ drop block_size buf.old }
{
    words::put_zeros(buf, block::layout::SIZE);
    words::put_word(
        buf,
        layout::KIND_JOBS,
        layout::LOG_KIND + block::layout::HALF * jobs.count,
    );
    for i in 0..jobs.count as usize {
        let entry = jobs.entries[i];
        blockparts::put_entry(buf, layout::GUEST, i, entry.guest, entry.task, entry.age);
    }
    blockparts::put_check(buf);
}
