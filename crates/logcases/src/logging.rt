// The log in hand: jobs gathered for its next block, and its blocks written.
use block::layout;
use casework::say;
use statement::{Entries, Entry};
use std::io;

// The length of 4 blocks, the most that the log in hand has.
pub const MOST_BYTES: usize = 4 * layout::SIZE;

// No job is gathered.
pub fn no_jobs() -> Entries {
    let none = Entry {
        guest: 0,
        task: 0,
        age: 0,
    };
    Entries {
        count: 0,
        entries: [none; 41],
    }
}

// A job gathered, by its guest, task and age; one past the 41st is counted and has no entry.
pub fn add(jobs: &mut Entries, [guest, task, age, ..]: [u32; 6]) {
    let n = jobs.count as usize;
    if n < 41 {
        jobs.entries[n] = Entry { guest, task, age };
    }
    jobs.count = jobs.count.saturating_add(1).min(99);
}

// The block of these jobs written at the log's end, into so many bytes; the log's length after it.
pub fn write(
    rt: &impl Print,
    jobs: &Entries,
    log: &mut [u8],
    length: usize,
    room: u32,
) -> io::Result<usize> {
    let end = length.saturating_add(room as usize);
    if (layout::SIZE < room as usize) | (log.len() < end) {
        return Ok(length);
    }
    let written = statement::write_log(*jobs, &mut log[length..end]);
    say::outcome(rt, written)?;
    Ok(if written.is_ok() { end } else { length })
}
