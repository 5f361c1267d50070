// The plan's blocks, those of Deferrable guests as old cards have them: printed, cut short, damaged, searched.
use block::layout;
use casework::{damage, say};
use draft::text::Row;
use plan::Plan;
use std::io;

// The length of 9 blocks, a block more than a plan has.
const BLOCK_MORE: usize = draft::MOST_BYTES + layout::SIZE;

// The finder's companion, and how many bytes the part found has.
fn find(rt: &impl Print, bytes: &[u8], id: u32) -> io::Result<()> {
    let (number, place) = match planfile::find_place(bytes, id) {
        Ok(place) => (0, place),
        Err(r) => (r.number, r.place),
    };
    let many = planfile::find(bytes, id).len();
    println!(rt; ": number {number} place {place}, bytes {many}")
}

// The plan's blocks, zeros past them, and the line's damage to them, in as many bytes as the line says, else those of
// the plan's blocks: a guest found in them, or what they hold printed.
pub fn ask(rt: &impl Print, p: &Plan, row: Row) -> io::Result<()> {
    let [a, b, ..] = row.numbers;
    let mut buf = [0u8; BLOCK_MORE];
    let _ = draft::write(p, &mut buf, true);
    damage::damage(&mut buf, row);
    let n = match row.first {
        b'r' => a as usize,
        b'f' if 1 < row.count => b as usize,
        _ => draft::length(p),
    };
    if buf.len() < n {
        return Ok(());
    }
    match row.first {
        b'f' => find(rt, &buf[..n], a),
        b'p' => show::show(rt, &buf[..n]),
        _ => {
            print!(rt; ": ")?;
            show::show(rt, &buf[..n])
        }
    }
}

// The first guest, by the writer, at a place into so many bytes.
pub fn write(rt: &impl Print, p: &Plan, row: Row) -> io::Result<()> {
    let [place, n, ..] = row.numbers;
    let mut buf = [0u8; layout::SIZE];
    let n = n as usize;
    if n <= buf.len() {
        say::outcome(rt, blockwriter::write(p.guests[0], place, &mut buf[..n]))?;
    }
    println!(rt)
}
