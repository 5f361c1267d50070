// Document 01's cases, and plans good and damaged in each way, through every entry; `check` through those that give
// its refusals.
// Standard input has the cases, a line for each guest, task or call: its first letter says which. Each line is
// written out again, a call with its outcome;
// a line that starts with # says why the outcome is right and is left out.
#![tactic(auto)]

use casework::say;
use dispatcher::Dispatcher;
use draft::text::{Row, row_of, with_line};
use plan::Plan;
use std::io::{self, Read};

mod amending;
mod dispatching;
mod files;
mod judging;
mod sheets;

// The most bytes of the cases.
const MOST_READ: u64 = 32768;

// What is in hand: the plan, the standing plan that it is an amendment of, and the dispatcher's state.
#[derive(Clone, Copy)]
struct Desk {
    plan: Plan,
    standing: Plan,
    dispatcher: Dispatcher,
}

// Nothing is in hand.
fn bare() -> Desk {
    let plan = plan::blank_plan();
    Desk {
        plan,
        standing: plan,
        dispatcher: Dispatcher::fresh(plan).state,
    }
}

// The plan with these marks for the guest at a place, also past its tasks.
fn set_marks(p: &mut Plan, place: u32, marks: u32) {
    if let Ok(marks) = u16::try_from(marks) {
        let k = place as usize;
        if k < 8 {
            p.guests[k].marks = marks;
        }
    }
}

// What a line that is not answered does: `new` empties the plan, `count` says how many of its guests count, `marks`
// sets those of a guest; `Keep` makes it the standing plan; others set a number of the dispatcher's state, or add to
// the plan.
fn change(desk: &mut Desk, row: Row) {
    let [a, b, ..] = row.numbers;
    match row.first {
        b'n' => desk.plan = plan::blank_plan(),
        b'c' => desk.plan.count = a,
        b'm' => set_marks(&mut desk.plan, a, b),
        b'K' => desk.standing = desk.plan,
        b'L' | b'P' | b'D' => dispatching::set_guest(
            &mut desk.dispatcher,
            row.first,
            a as usize,
            b,
        ),
        b'J' | b'W' | b'A' => dispatching::set_job(&mut desk.dispatcher, row.first, a as usize, b),
        _ => desk.plan = with_line(desk.plan, row).unwrap_or(desk.plan),
    }
}

// What a line asks of the plan in hand: `print` it, `read` so many of its bytes, `damage` a block or leave it
// `unmended`, `find` a guest; `write` one; `verdict` of a guest or a task, `accept`, the `smallest` capacity; `order`
// of a guest's tasks, which is the plan's from here on; `Offer` a guest of the standing plan the plan as a sheet.
fn ask(rt: &impl Print, desk: &mut Desk, row: Row) -> io::Result<()> {
    match row.first {
        b'p' => {
            println!(rt)?;
            files::ask(rt, &desk.plan, row)
        }
        b'r' | b'd' | b'u' | b'f' => files::ask(rt, &desk.plan, row),
        b'w' => files::write(rt, &desk.plan, row),
        b'v' => judging::verdict(rt, &desk.plan, row),
        b'a' => judging::accept(rt, &desk.plan),
        b's' => judging::smallest(rt, &desk.plan, row),
        b'O' => amending::offer(rt, &desk.standing, &desk.plan, row),
        b'o' => {
            desk.plan = judging::ordered(rt, &desk.plan, row)?;
            Ok(())
        }
        _ => Ok(()),
    }
}

// The line's outcome: an answer ends the line itself, but for what `print` writes.
fn asked(rt: &impl Print, desk: &mut Desk, row: Row) -> io::Result<()> {
    match row.first {
        0 | b'n' | b'c' | b'm' | b'g' | b't' | b'K' | b'L' | b'P' | b'D' | b'J' | b'W' | b'A' => {
            change(desk, row);
            println!(rt)
        }
        b'S' | b'R' | b'H' | b'T' | b'G' => {
            desk.dispatcher = dispatching::call(rt, &desk.plan, desk.dispatcher, row)?;
            Ok(())
        }
        _ => ask(rt, desk, row),
    }
}

// Each line with its outcome; what stands behind the last line's end is written out again alone.
fn lines(rt: &impl Print, input: &[u8]) -> io::Result<()> {
    let mut desk = bare();
    for part in input.split_inclusive(|b| *b == b'\n') {
        let line = part.strip_suffix(b"\n").unwrap_or(part);
        let row = row_of(line);
        say::echo(rt, line, row)?;
        if line.len() < part.len() {
            asked(rt, &mut desk, row)?;
        }
    }
    Ok(())
}

fn main(rt: HostRuntime) -> io::Result<()> {
    let mut input = Vec::new(rt.alloc());
    rt.reader().take(MOST_READ).read_to_end(&mut input)?;
    lines(&rt, &input)
}
