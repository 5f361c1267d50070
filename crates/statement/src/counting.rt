// Entries of a log block counted in the lines of a statement.
ghost use Rattle.std.specs.Prelude.{◌≡◌, ℕ, ◌+◌, ◌≤◌, ◌<◌, MatchResult};
ghost use Rattle.logblock.specs.Layout.{most_jobs};
ghost use Rattle.statement.specs.Counting.{counted_at, entries_counted};
ghost use Rattle.statement.specs.Lent.{Countable, AtMost, RoomAt, Aimed, aim_of, missing};

use crate::Statement;
use crate::columns::Gathered;
use block::layout::SIZE;
use logblock::Entry;

// A block with an entry of no guest is refused by this number.
const NO_GUEST: u32 = 7;

// A block with an entry of no task is, where each guest is there.
const NO_TASK: u32 = 8;

// The line that an entry is counted at, or which of guest and task is missing.
fn aim(by: &Gathered, entry: Entry) -> Result<u32, u32>
    ensures { result ≡ aim_of by.now.plan.now entry }
{
    let n = by.plan.count as usize;
    let k = plan::place_of(&by.columns.ids, n, entry.guest);
    if n <= k {
        return Err(NO_GUEST);
    }
    if !plan::has_task(by.columns.tasks[k], entry.task) {
        return Err(NO_TASK);
    }
    Ok((k as u32) * 16 + (entry.task - 1))
}

// The lines that the first n jobs of a block are counted at, or the number that they refuse the block by.
pub fn aim_all(by: &Gathered, b: &[u8; SIZE], jobs: usize) -> Result<[u32; 41], u32>
    requires { jobs ≤ most_jobs }
    ensures { MatchResult result (Aimed by.now.plan.now b.now jobs)
        (λ x. (0 < x) × (x ≡ missing by.now.plan.now b.now jobs)) }
{
    let mut at = [0u32; 41];
    let mut tasks = true;
    for i in 0..jobs {
        match aim(by, logblock::entry_of(b, i)) {
            Ok(line) => at[i] = line,
            Err(NO_TASK) => tasks = false,
            Err(number) => return Err(number),
        }
    }
    if tasks { Ok(at) } else { Err(NO_TASK) }
}

// A job of that age counted in line k, whose task has that deadline.
#[tactic(auto, unfolding(crate::specs::Counting::counted_at))]
fn count(running: &mut Statement, k: usize, deadline: u32, age: u32)
    requires { (most : ℕ) × RoomAt k deadline age most running.old }
    ensures { running.new ≡ counted_at k deadline age running.old }
{
    running.margins[k] = margins::plus(running.margins[k], margins::margin_of(deadline, age));
    running.jobs[k] += 1;
    running.longest[k] = running.longest[k].max(age);
    running.late[k] += u32::from(deadline < age);
}

// All jobs of a block counted at their lines.
pub fn count_all(
    running: &mut Statement,
    by: &Gathered,
    b: &[u8; SIZE],
    many: usize,
    at: &[u32; 41],
)
    requires { Countable by.now.plan.now b.now many at.now by.now.deadlines
        × ((most : ℕ) × ((most + many < 4294967296) × AtMost most running.old)) }
    ensures { running.new ≡ entries_counted by.now.plan.now b.now many running.old }
{
    for i in 0..many {
        let k = at[i] as usize;
        count(running, k, by.deadlines[k], logblock::entry_of(b, i).age);
    }
}
