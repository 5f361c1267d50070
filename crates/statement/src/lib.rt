// A statement of finished jobs: logs of them added up task by task, and a log's blocks written.
#![tactic(auto)]

ghost use Rattle.std.specs.Prelude.{◌≡◌};
ghost use Rattle.plan.specs.First.{unless_refused};
ghost use Rattle.blockfile.specs.File.{file_refusal};
ghost use Rattle.planfile.specs.Records.{read_of};
ghost use Rattle.statement.specs.Call.{call_refusal};
ghost use Rattle.statement.specs.Promises.{Extends};

use block::layout;
use plan::{Plan, Refusal};

mod columns;
mod counting;
mod ranges;
mod taking;

pub use logblock::{Entries, Entry, write_log};

// The blocks counted, and for task t of guest g, at line 16 g + t, the sum of the margins, the jobs counted, the
// longest age, and how many were late. It crosses to C as it is.
#[repr(C)]
#[derive(Clone, Copy)]
pub struct Statement {
    pub blocks: u64,
    pub margins: [i64; 128],
    pub jobs: [u32; 128],
    pub longest: [u32; 128],
    pub late: [u32; 128],
}

// The outcome of a call, as it crosses to C: its refusal, number 0 for none, and the next statement; how many blocks of
// the log were passed over, and the position in it and the number of the first that was, both 0 if none was.
#[repr(C)]
#[derive(Clone, Copy)]
pub struct Stated {
    pub refusal: Refusal,
    pub statement: Statement,
    pub passed: u64,
    pub position: u64,
    pub number: u32,
}

// Whether a call is not refused, or else its refusal: the plan's reading order, then 14, then 1.
fn check(running: &Statement, plan: &[u8], log: &[u8]) -> Result<(), Refusal>
    ensures { result ≡ unless_refused (call_refusal running.now plan.now log.now) tt }
{
    blockfile::check_blocks(plan, true)?;
    if !ranges::statement_ok(running) {
        return Err(Refusal {
            number: 14,
            place: 0,
        });
    }
    if log.len() % layout::SIZE != 0 {
        return Err(Refusal {
            number: 1,
            place: 0,
        });
    }
    Ok(())
}

// The plan of a call that is not refused. It is not `planfile::read`, so that a refused call makes no records and the
// plan is not moved through a Result.
fn records(plan: &[u8]) -> Plan
    requires { (file_refusal plan.now).number ≡ 0 }
    ensures { result ≡ (read_of plan.now).plan }
{
    let count = plan.len() / layout::SIZE;
    let guests = blockfile::records_of(plan, count);
    Plan {
        count: count as u32,
        guests,
    }
}

// The log's blocks counted in the running statement, against the plan.
pub fn extend(running: Statement, plan: &[u8], log: &[u8]) -> Stated
    ensures { Extends running plan.now log.now result }
{
    let mut stated = Stated {
        refusal: Refusal {
            number: 0,
            place: 0,
        },
        statement: running,
        passed: 0,
        position: 0,
        number: 0,
    };
    match check(&stated.statement, plan, log) {
        Ok(()) => taking::count_log(&mut stated, &records(plan), log),
        Err(refusal) => stated.refusal = refusal,
    }
    stated
}
