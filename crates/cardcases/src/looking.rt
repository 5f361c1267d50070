// What stands in lent bytes after a call.
use std::io;

// Writes the first n bytes as a plan, and the byte behind them, if there is one.
pub fn look(rt: &impl Print, out: &[u8], n: usize) -> io::Result<()> {
    if let Some(plan) = out.get(..n) {
        show::show(rt, plan)?;
    }
    if let Some(b) = out.get(n) {
        println!(rt; "then {b}")?;
    }
    Ok(())
}
