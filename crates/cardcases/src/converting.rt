// A card converted: the refusal, and what was written.
use crate::looking;
use casework::say;
use draft::text::Row;
use std::io;

// The card's bytes converted into lent ones.
fn convert(rt: &impl Print, card: &[u8], out: &mut [u8]) -> io::Result<()> {
    let converted = conversion::convert(card, out);
    say::outcome(rt, converted)?;
    println!(rt)?;
    if converted.is_ok() {
        looking::look(rt, out, card.len())?;
    }
    Ok(())
}

// `Convert` so many bytes of the card into so many lent ones, each 255 before.
pub fn ask(rt: &impl Print, card: &[u8], row: Row) -> io::Result<()> {
    let [n, m, ..] = row.numbers;
    let mut out = [255u8; 4608];
    let n = n as usize;
    let m = m as usize;
    if (n <= card.len()) & (m <= out.len()) {
        convert(rt, &card[..n], &mut out[..m])?;
    }
    Ok(())
}
