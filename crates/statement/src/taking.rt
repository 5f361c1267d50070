// A log taken block by block: each block is counted or passed over.
ghost use Rattle.std.specs.Prelude.{◌≡◌, true, ◌*◌};
ghost use Rattle.lists.specs.Refusals.{unless_number};
ghost use Rattle.plan.specs.First.{fine};
ghost use Rattle.plan.specs.Order.{plan_refusal};
ghost use Rattle.logblock.specs.Layout.{most_jobs};
ghost use Rattle.blockfile.specs.File.{blocks_in};
ghost use Rattle.statement.specs.Lines.{statement_ok};
ghost use Rattle.statement.specs.Block.{block_number};
ghost use Rattle.statement.specs.Log.{after_block};
ghost use Rattle.statement.specs.Call.{stated_over, unstated};
ghost use Rattle.statement.specs.Lent.{AtMost};

use crate::columns::{Gathered, gather};
use crate::counting::{aim_all, count_all};
use crate::ranges::MOST_BLOCKS;
use crate::{Stated, Statement};
use block::layout::SIZE;
use plan::Plan;

// One block: its entries are counted, or it is passed over by 2, 3, 18, 5, 7, 8 or 19.
fn take(running: &mut Statement, by: &Gathered, b: &[u8; SIZE]) -> Result<(), u32>
    requires { AtMost (most_jobs * running.old.blocks) running.old }
    ensures number { result ≡ unless_number (block_number by.now.plan.now running.old.blocks b.now) tt }
    ensures after { running.new ≡ after_block by.now.plan.now b.now running.old }
{
    logblock::own_number(b)?;
    let many = logblock::jobs_of(b) as usize;
    let at = aim_all(by, b, many)?;
    if MOST_BLOCKS <= running.blocks {
        return Err(19);
    }
    count_all(running, by, b, many, &at);
    running.blocks += 1;
    Ok(())
}

// The log counted in an outcome that says nothing yet. The outcome stays where it is made, as a statement is large to
// move. This stays a call of its own, so that a refused one makes none of what it needs.
#[inline(never)]
pub fn count_log(stated: &mut Stated, plan: &Plan, log: &[u8])
    requires in_order { ((plan_refusal plan.now).number ≡ 0) × (statement_ok stated.old.statement ≡ true) }
    requires nothing_said { stated.old ≡ unstated fine stated.old.statement }
    ensures { stated.new ≡ stated_over plan.now log.now (blocks_in log.now) stated.old.statement }
{
    let by = gather(plan);
    for k in 0..log.len() / SIZE {
        if let Err(number) = take(&mut stated.statement, &by, blockfile::block_at(log, k)) {
            // Number 0 says that no block was passed over yet, as C is told.
            if stated.number < 1 {
                stated.position = k as u64;
                stated.number = number;
            }
            stated.passed += 1;
        }
    }
}
