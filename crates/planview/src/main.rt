// Reads a plan from standard input to its end, and prints its verdicts. One byte more than the longest plan is read,
// so that a longer input is seen to be one.
#![tactic(auto)]

use std::io::{self, Read};

const MOST_READ: u64 = 4097;

fn main(rt: HostRuntime) -> io::Result<()> {
    let mut bytes = Vec::new(rt.alloc());
    rt.reader().take(MOST_READ).read_to_end(&mut bytes)?;
    show::show(&rt, &bytes)
}
