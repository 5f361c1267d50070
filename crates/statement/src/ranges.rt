// Refusal 14's test of a running statement.
ghost use Rattle.std.specs.Prelude.{◌≡◌, ◌&&◌, ◌*◌, ◌≤◌, leb, nat_abs};
ghost use Rattle.lists.specs.All.{all_to};
ghost use Rattle.plan.specs.Ranges.{longest};
ghost use Rattle.margins.specs.Margin.{widest};
ghost use Rattle.statement.specs.Lines.{most_blocks, most_lines, line_ok, statement_ok};

use crate::Statement;

// The most blocks that a statement counts.
pub const MOST_BLOCKS: u64 = 1000000;

// Whether the numbers of a line are in their ranges, with at most so many jobs. In 64 bits no product overflows.
fn line_ok(most: u64, margins: i64, jobs: u32, oldest: u32, late: u32) -> bool
    ensures { result ≡ (leb jobs most && leb late jobs && leb oldest longest && leb (nat_abs margins) (widest * jobs)) }
{
    (u64::from(jobs) <= most)
        & (late <= jobs)
        & (oldest <= plan::LONGEST)
        & margins::within(margins, jobs)
}

// Whether all 128 lines are in their ranges.
#[tactic(auto, unfolding(crate::specs::Lines::line_ok))]
fn lines_ok(s: &Statement) -> bool
    requires { s.now.blocks ≤ most_blocks }
    ensures { result ≡ all_to (line_ok s.now) most_lines }
{
    let most = u64::from(logblock::MOST_JOBS) * s.blocks;
    let mut ok = true;
    for k in 0..128 {
        ok &= line_ok(most, s.margins[k], s.jobs[k], s.longest[k], s.late[k]);
    }
    ok
}

// Whether the statement is in its ranges.
#[tactic(auto, unfolding(crate::specs::Lines::statement_ok))]
pub fn statement_ok(s: &Statement) -> bool
    ensures { result ≡ statement_ok s.now }
{
    s.blocks <= MOST_BLOCKS && lines_ok(s)
}
