// Log blocks written, and statements of the jobs logged, which cross as they are.
ghost use Rattle.coreshare.specs.Promises.{TellsLog};
ghost use Rattle.statement.specs.Promises.{Extends};

use crate::telling::tell_refusal;
use logblock::Entries;
use plan::Refusal;
use statement::{Stated, Statement};

#[unsafe(no_mangle)]
pub extern "C" fn cs_write_log(jobs: Entries, buf: &mut [u8]) -> Refusal
    ensures { TellsLog jobs buf.old result buf.new }
{
    tell_refusal(logblock::write_log(jobs, buf))
}

#[unsafe(no_mangle)]
pub extern "C" fn cs_statement(running: Statement, plan: &[u8], log: &[u8]) -> Stated
    ensures { Extends running plan.now log.now result }
{
    statement::extend(running, plan, log)
}
