// A card salvaged: the list, and what was saved.
use crate::looking;
use casework::say;
use draft::text::Row;
use salvage::{Fate, Salvaged};
use std::io;

// Writes what becomes of block k.
fn fate(rt: &impl Print, k: usize, f: Fate) -> io::Result<()> {
    // Number 0 says that the block is kept, as C is told.
    if 0 < f.number {
        println!(rt; "block {k} dropped by {}", f.number)
    } else {
        println!(rt; "block {k} kept at {}", f.place)
    }
}

// Writes the outcome, with the list of a card's first four blocks.
fn tell(rt: &impl Print, r: Salvaged) -> io::Result<()> {
    say::refusal(rt, r.refusal)?;
    println!(rt; ", bytes {}, blocks {}", r.written, r.blocks)?;
    for (k, f) in r.fates[..4].iter().enumerate() {
        if k < r.blocks as usize {
            fate(rt, k, *f)?;
        }
    }
    Ok(())
}

// The card's bytes salvaged into lent ones.
fn save(rt: &impl Print, card: &[u8], out: &mut [u8]) -> io::Result<()> {
    let r = salvage::salvage(card, out);
    tell(rt, r)?;
    looking::look(rt, out, r.written as usize)
}

// `Save` so many bytes of the card into so many lent ones, each 255 before.
pub fn ask(rt: &impl Print, card: &[u8], row: Row) -> io::Result<()> {
    let [n, m, ..] = row.numbers;
    let mut out = [255u8; 4096];
    let n = n as usize;
    let m = m as usize;
    if (n <= card.len()) & (m <= out.len()) {
        save(rt, &card[..n], &mut out[..m])?;
    }
    Ok(())
}
