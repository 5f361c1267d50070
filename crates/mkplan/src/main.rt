// A plan's text from standard input, its blocks to standard output. Where a line is wrong or the writer refuses a
// guest, a message and no block.
#![tactic(auto)]

use plan::Plan;
use std::io::{self, Read};

mod lines;

// The most bytes of a text.
const LONGEST: usize = 16384;

// The plan's blocks.
fn write(rt: &impl Print, err: &impl Print, plan: &Plan) -> io::Result<()> {
    let mut blocks = [0u8; draft::MOST_BYTES];
    match draft::write(plan, &mut blocks, false) {
        Ok(()) => rt.write_all(&blocks[..draft::length(plan)]),
        Err(refusal) => {
            let number = refusal.number;
            let place = refusal.place;
            println!(err; "refused {number} block {place}")
        }
    }
}

fn main(rt: HostRuntime) -> io::Result<()> {
    let err = rt.stderr();
    let mut text = Vec::new(rt.alloc());
    rt.reader().take(LONGEST as u64 + 1).read_to_end(&mut text)?;
    if LONGEST < text.len() {
        return println!(err; "a text of more than {LONGEST} bytes");
    }
    match lines::read(&text) {
        Ok(plan) => write(&rt, &err, &plan),
        Err(line) => println!(err; "neither a guest nor a task: line {line}"),
    }
}
