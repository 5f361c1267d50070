// Plans made step by step, and their bytes written block by block, by the writer or as old cards have them.
#![tactic(auto)]

ghost use Rattle.std.specs.Prelude.{◌≤◌};

use block::layout;
use plan::{Guest, Plan, Refusal};

pub mod text;

// The most guests of a plan, and the most tasks of a guest.
const MOST_GUESTS: u32 = 8;

const MOST_TASKS: u32 = 16;

// The length of 8 blocks, the most that a plan has.
pub const MOST_BYTES: usize = 8 * layout::SIZE;

// A task's numbers, and whether it is bound.
#[derive(Clone, Copy)]
pub struct Task {
    pub run: u32,
    pub every: u32,
    pub deadline: u32,
    pub bound: bool,
}

// The guest with one task more, below the others; a seventeenth has no room.
fn with_task(mut g: Guest, task: Task) -> Option<Guest> {
    if MOST_TASKS <= g.tasks {
        return None;
    }
    let i = g.tasks as usize;
    g.run[i] = task.run;
    g.every[i] = task.every;
    g.deadline[i] = task.deadline;
    g.tasks += 1;
    if task.bound {
        g.marks |= 1 << i;
    }
    Some(g)
}

// The plan with one guest more, below the others; a ninth has no room.
fn with_guest(mut p: Plan, g: Guest) -> Option<Plan> {
    if MOST_GUESTS <= p.count {
        return None;
    }
    p.guests[p.count as usize] = g;
    p.count += 1;
    Some(p)
}

// The plan with one task more in its last guest; it has no room where there is no guest.
fn with_last_task(mut p: Plan, task: Task) -> Option<Plan> {
    let last = p.count.checked_sub(1)?;
    if MOST_GUESTS <= last {
        return None;
    }
    let k = last as usize;
    p.guests[k] = with_task(p.guests[k], task)?;
    Some(p)
}

// How many bytes the plan's blocks have; none with more than 8 guests.
pub fn length(p: &Plan) -> usize
    ensures { result ≤ MOST_BYTES }
{
    if p.count <= MOST_GUESTS {
        layout::SIZE * p.count as usize
    } else {
        0
    }
}

// The block at the buffer's start made a Deferrable guest's: the kind, byte 22 and the check.
fn defer(marks: u16, place: u32, buf: &mut [u8]) {
    if (place <= layout::LAST_PLACE) & (layout::SIZE <= buf.len()) {
        words::put_word(
            buf,
            layout::KIND_PLACE,
            layout::EXTENDED_KIND + layout::HALF * place,
        );
        let server = layout::HALF * layout::DEFERRABLE_SERVER;
        words::put_word(buf, layout::MARKS_SERVER, u32::from(marks) + server);
        blockparts::put_check(buf);
    }
}

// A guest's block, or that of a Deferrable guest as old cards have it, which the writer writes no more.
fn write_block(mut g: Guest, place: u32, buf: &mut [u8], old: bool) -> Result<(), Refusal> {
    let deferred = old & (0 < g.deferrable);
    if deferred {
        g.deferrable = 0;
    }
    blockwriter::write(g, place, buf)?;
    if deferred {
        defer(g.marks, place, buf);
    }
    Ok(())
}

// The plan's blocks, one after the other, up to the first that is refused; none with more than 8 guests. An old card
// can have Deferrable guests.
pub fn write(p: &Plan, buf: &mut [u8], old: bool) -> Result<(), Refusal> {
    if MOST_GUESTS < p.count {
        return Ok(());
    }
    for place in 0..p.count {
        let k = place as usize;
        let at = buf.len().min(layout::SIZE * k);
        write_block(p.guests[k], place, &mut buf[at..], old)?;
    }
    Ok(())
}
