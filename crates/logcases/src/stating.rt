// The running statement: a log added to it, and its numbers set.
use casework::say;
use plan::Plan;
use statement::{Stated, Statement};
use std::io;

// The statement in which nothing is counted yet.
pub fn empty() -> Statement {
    Statement {
        blocks: 0,
        margins: [0; 128],
        jobs: [0; 128],
        longest: [0; 128],
        late: [0; 128],
    }
}

// Writes whether the sum of a line is this number.
pub fn compare(rt: &impl Print, s: &Statement, k: u32, sum: u32) -> io::Result<()> {
    match s.margins.get(k as usize) {
        Some(margins) if *margins == i64::from(sum) => println!(rt; ": they are"),
        Some(_) => println!(rt; ": they are not"),
        None => Ok(()),
    }
}

// Writes line k of the statement, if a job is counted in it.
fn line(rt: &impl Print, s: &Statement, k: usize) -> io::Result<()> {
    if (128 <= k) || (s.jobs[k] < 1) {
        return Ok(());
    }
    print!(rt;
        "line {k} jobs {} longest {} late {}",
        s.jobs[k], s.longest[k], s.late[k]
    )?;
    if s.margins[k] < 0 {
        println!(rt; ", margins negative")
    } else {
        println!(rt; ", margins not negative")
    }
}

// Writes the outcome of a call.
fn tell(rt: &impl Print, r: &Stated) -> io::Result<()> {
    let s = &r.statement;
    let passed = r.passed;
    let number = r.number;
    let position = r.position;
    let blocks = s.blocks;
    say::refusal(rt, r.refusal)?;
    println!(rt; ", passed over {passed}, first by {number} at {position}, blocks {blocks}")?;
    for k in 0..128 {
        line(rt, s, k)?;
    }
    Ok(())
}

// The first n bytes of the log added to the statement, against the plan.
pub fn extend(rt: &impl Print, p: &Plan, s: &mut Statement, log: &[u8], n: u32) -> io::Result<()> {
    let mut bytes = [0u8; draft::MOST_BYTES];
    let _ = draft::write(p, &mut bytes, true);
    let n = n as usize;
    if n <= log.len() {
        let r = statement::extend(*s, &bytes[..draft::length(p)], &log[..n]);
        tell(rt, &r)?;
        *s = r.statement;
    }
    Ok(())
}

// The numbers of a line set: its jobs, its longest age, how many were late.
pub fn set_line(s: &mut Statement, [k, jobs, longest, late, ..]: [u32; 6]) {
    let k = k as usize;
    if k < 128 {
        s.jobs[k] = jobs;
        s.longest[k] = longest;
        s.late[k] = late;
    }
}

// The sum of a line set.
pub fn set_sum(s: &mut Statement, [k, sum, ..]: [u32; 6]) {
    let k = k as usize;
    if k < 128 {
        s.margins[k] = i64::from(sum);
    }
}
