// Sheets of releases, handed in with places for their answers.
use casework::say;
use dispatcher::Dispatcher;
use draft::text::Row;
use std::io;

// A pair is the guest id times this, plus the task number.
const PAIR_BASE: u64 = 65536;

// More pairs than a sheet may have.
const MOST: usize = 260;

// A task as a sheet names it.
fn pair(guest: u32, task: u32) -> u64 {
    PAIR_BASE * u64::from(guest) + u64::from(task)
}

// Two pairs in turn.
fn in_turn(first: u64, second: u64) -> [u64; MOST] {
    let mut pairs = [first; MOST];
    for i in 0..MOST / 2 {
        pairs[2 * i + 1] = second;
    }
    pairs
}

// Writes what each lent place holds, and how many places in a row hold it where these are more than one.
fn places(rt: &impl Print, answers: &[u32]) -> io::Result<()> {
    print!(rt; ", places:")?;
    for run in answers.chunk_by(|a, b| a == b) {
        if let [number, ..] = run {
            print!(rt; " {number}")?;
        }
        let many = run.len();
        if 1 < many {
            print!(rt; " x{many}")?;
        }
    }
    Ok(())
}

// So many pairs with so many places: the pairs of two tasks come in turn, and each place holds 99 before. Nothing is
// handed in where there are fewer of either.
pub fn hand_in(rt: &impl Print, d: Dispatcher, row: Row) -> io::Result<Dispatcher> {
    let [n, m, guest, task, other, its] = row.numbers;
    let pairs = in_turn(pair(guest, task), pair(other, its));
    let mut answers = [99u32; MOST];
    let n = n as usize;
    let m = m as usize;
    let mut next = d;
    if (n <= MOST) & (m <= MOST) {
        let released = sheet::release_all(d, &pairs[..n], &mut answers[..m]);
        say::refusal(rt, released.refusal)?;
        places(rt, &answers[..m])?;
        next = released.state;
    }
    println!(rt)?;
    Ok(next)
}
