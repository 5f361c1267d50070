// Plan files salvaged and converted: cards with blocks damaged, lost, out of place and repeated, and old cards.
// Standard input has the cases, a line for each guest, task, damage or call: its first letter says which. Each line is
// written out again, a call with its outcome; a line that starts with # says why the outcome is right and is left out.
#![tactic(auto)]

use casework::{damage, say};
use draft::text::{Row, row_of, with_line};
use plan::Plan;
use std::io::{self, Read};

mod converting;
mod looking;
mod saving;

// The most bytes of the cases.
const MOST_READ: u64 = 8192;

// The length of 9 blocks, a block more than a plan has.
const CARD: usize = 4608;

// The plan after a line: `new` empties it.
fn planned(p: Plan, row: Row) -> Plan {
    match row.first {
        b'n' => plan::blank_plan(),
        _ => with_line(p, row).unwrap_or(p),
    }
}

// The card after a line: `make` writes the plan's blocks to it, up to the first that is refused; others may damage it.
fn changed(p: &Plan, card: &mut [u8], row: Row) {
    if row.first == b'm' {
        let _ = draft::write(p, card, true);
    }
    damage::damage(card, row);
}

// What a line asks of the card; the line ends where it has no answer that ends it.
fn asked(rt: &impl Print, card: &[u8], row: Row) -> io::Result<()> {
    match row.first {
        b'S' => saving::ask(rt, card, row),
        b'C' => converting::ask(rt, card, row),
        b'#' => Ok(()),
        _ => println!(rt),
    }
}

// Each line with its outcome; what stands behind the last line's end is written out again alone.
fn lines(rt: &impl Print, input: &[u8]) -> io::Result<()> {
    let mut plan = plan::blank_plan();
    let mut card = [0u8; CARD];
    for part in input.split_inclusive(|b| *b == b'\n') {
        let line = part.strip_suffix(b"\n").unwrap_or(part);
        let row = row_of(line);
        say::echo(rt, line, row)?;
        if line.len() < part.len() {
            plan = planned(plan, row);
            changed(&plan, &mut card, row);
            asked(rt, &card, row)?;
        }
    }
    Ok(())
}

fn main(rt: HostRuntime) -> io::Result<()> {
    let mut input = Vec::new(rt.alloc());
    rt.reader().take(MOST_READ).read_to_end(&mut input)?;
    lines(&rt, &input)
}
