// A log block of 512 bytes: its layout, one tested by itself, and one written from entries. Inner, but for `write_log`.
#![tactic(auto)]

ghost use Rattle.logblock.specs.Promises.{WritesLog};

use plan::Refusal;

mod layout;
mod reader;
mod writer;

pub use layout::MOST_JOBS;
pub use reader::{entry_of, jobs_of, own_number};

// A finished job: its guest's id, its task's number from 1, and its age.
#[repr(C)]
#[derive(Clone, Copy)]
pub struct Entry {
    pub guest: u32,
    pub task: u32,
    pub age: u32,
}

// The jobs of a log block, as they cross to C: its first `count` entries.
#[repr(C)]
#[derive(Clone, Copy)]
pub struct Entries {
    pub count: u32,
    pub entries: [Entry; 41],
}

// Writes the log block of the entries to the first 512 bytes of the buffer; a refusal writes nothing.
#[tactic(auto, unfolding(crate::specs::Writing::log_number, crate::specs::Entries::jobs_ok, lists::specs::Refusals::refusal, lists::specs::Refusals::unless, blockparts::specs::Parts::written_by))]
pub fn write_log(jobs: Entries, buf: &mut [u8]) -> Result<(), Refusal>
    ensures { WritesLog jobs buf.old result buf.new }
{
    writer::log_number(&jobs, buf.len()).map_err(|number| Refusal { number, place: 0 })?;
    writer::put_log(&jobs, buf);
    Ok(())
}
