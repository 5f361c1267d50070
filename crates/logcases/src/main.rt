// Logs of finished jobs, good and damaged in each way, and statements over them.
// Standard input has the cases, a line for each guest, task, job or call: its first letter says which. Each line is
// written out again, a call with its outcome; a line that starts with # says why the outcome is right and is left out.
#![tactic(auto)]

use casework::{damage, say};
use draft::text::{Row, row_of, with_line};
use plan::Plan;
use statement::{Entries, Statement};
use std::io::{self, Read};

mod logging;
mod stating;

// The most bytes of the cases.
const MOST_READ: u64 = 16384;

// What is in hand: the plan, the jobs of the log's next block, the statement, and the log with its length.
#[derive(Clone, Copy)]
struct Desk {
    plan: Plan,
    jobs: Entries,
    statement: Statement,
    log: [u8; logging::MOST_BYTES],
    length: usize,
}

// Nothing is in hand.
fn bare() -> Desk {
    Desk {
        plan: plan::blank_plan(),
        jobs: logging::no_jobs(),
        statement: stating::empty(),
        log: [0; logging::MOST_BYTES],
        length: 0,
    }
}

// What a line that is not answered does: `new` begins anew, but for the log's bytes; `clear` forgets the jobs gathered,
// `Job` adds one; `damage` and `unmended` change the log; `Blocks`, `Line` and `Sum` set numbers of the statement.
fn change(desk: &mut Desk, row: Row) {
    match row.first {
        b'n' => {
            let log = desk.log;
            *desk = Desk { log, ..bare() };
        }
        b'c' => desk.jobs = logging::no_jobs(),
        b'J' => logging::add(&mut desk.jobs, row.numbers),
        b'd' | b'u' => damage::damage(&mut desk.log, row),
        b'B' => desk.statement.blocks = u64::from(row.numbers[0]),
        b'L' => stating::set_line(&mut desk.statement, row.numbers),
        b'S' => stating::set_sum(&mut desk.statement, row.numbers),
        _ => desk.plan = with_line(desk.plan, row).unwrap_or(desk.plan),
    }
}

// What a line asks: `Write` puts the jobs gathered into a block of so many bytes at the log's end, `Extend` adds so
// many bytes of the log to the statement, `Margins` asks for the sum of a line. The answer ends the line.
fn asked(rt: &impl Print, desk: &mut Desk, row: Row) -> io::Result<()> {
    let [a, b, ..] = row.numbers;
    match row.first {
        b'W' => {
            desk.length = logging::write(rt, &desk.jobs, &mut desk.log, desk.length, a)?;
            println!(rt)
        }
        b'E' => stating::extend(rt, &desk.plan, &mut desk.statement, &desk.log, a),
        b'M' => stating::compare(rt, &desk.statement, a, b),
        b'#' => Ok(()),
        _ => {
            change(desk, row);
            println!(rt)
        }
    }
}

// Each line with its outcome; what stands behind the last line's end is written out again alone.
fn lines(rt: &impl Print, input: &[u8]) -> io::Result<()> {
    let mut desk = bare();
    for part in input.split_inclusive(|b| *b == b'\n') {
        let line = part.strip_suffix(b"\n").unwrap_or(part);
        let row = row_of(line);
        say::echo(rt, line, row)?;
        if line.len() < part.len() {
            asked(rt, &mut desk, row)?;
        }
    }
    Ok(())
}

fn main(rt: HostRuntime) -> io::Result<()> {
    let mut input = Vec::new(rt.alloc());
    rt.reader().take(MOST_READ).read_to_end(&mut input)?;
    lines(&rt, &input)
}
