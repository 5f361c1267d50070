// Writes lines and refusals. A write that fails is the error that comes back, and what stands before it is written.
use draft::text::Row;
use plan::Refusal;
use std::io;

// Writes a line out again. One that starts with # says why an outcome is right, and is left out, but for zeros before
// it.
pub fn echo(rt: &impl Print, line: &[u8], row: Row) -> io::Result<()> {
    if row.first != b'#' {
        return rt.write_all(line);
    }
    for b in line.iter().take_while(|b| **b == 0) {
        rt.write_all(&[*b])?;
    }
    Ok(())
}

// Writes an outcome: its refusal, or that there is none.
pub fn outcome<T: Drop>(rt: &impl Print, r: Result<T, Refusal>) -> io::Result<()> {
    match r {
        Ok(_) => print!(rt; ": not refused"),
        Err(r) => refusal(rt, r),
    }
}

// Writes a refusal, or for number 0 that there is none.
pub fn refusal(rt: &impl Print, r: Refusal) -> io::Result<()> {
    if 0 < r.number {
        print!(rt; ": refused {} block {}", r.number, r.place)
    } else {
        print!(rt; ": not refused")
    }
}
