// One guest's block of 512 bytes, written from a record.
#![tactic(auto)]

ghost use Rattle.std.specs.Prelude.{◌≡◌};
ghost use Rattle.blockwriter.specs.Writing.{with_place};
ghost use Rattle.blockwriter.specs.Promises.{Writes};

use plan::{Guest, Refusal};

mod writer;

pub use writer::put_block; // Inner: the converter writes blocks of guests that it made Periodic.

// Numbers 2 to 6 come with the place, all others with place 0.
fn with_place(number: u32, place: u32) -> Refusal
    ensures { result ≡ with_place number place }
{
    if (2..=6).contains(&number) {
        return Refusal { number, place };
    }
    Refusal { number, place: 0 }
}

// Writes the guest's block at its place to the first 512 bytes of the buffer; a refusal writes nothing.
pub fn write(guest: Guest, place: u32, buf: &mut [u8]) -> Result<(), Refusal>
    ensures { Writes guest place buf.old result buf.new }
{
    if let Err(number) = writer::write_number(&guest, place, buf.len()) {
        return Err(with_place(number, place));
    }
    writer::put_block(&guest, place, buf);
    Ok(())
}
