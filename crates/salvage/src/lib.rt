// A damaged plan file salvaged: the blocks that pass by themselves are kept, move up, and read as a plan again.
#![tactic(auto)]

ghost use Rattle.std.specs.Prelude.{◌≡◌, ◌≤◌};
ghost use Rattle.lists.specs.Refusals.{unless_number};
ghost use Rattle.plan.specs.Ranges.{most_guests};
ghost use Rattle.salvage.specs.Outcome.{listed_in, salvage_number, answer_of};
ghost use Rattle.salvage.specs.Promises.{Salvages};

use block::layout;
use plan::Refusal;

mod kept;
mod mover;
mod sifter;

pub use kept::Kept; // What `Sifted` holds, for who reads one.

// What becomes of a block, as it crosses to C: number 0 and its new place where it is kept, or the number that it is
// dropped by and place 0.
#[repr(C)]
#[derive(Clone, Copy)]
pub struct Fate {
    pub number: u32,
    pub place: u32,
}

// A file salvaged, as it crosses to C: the refusal, number 0 for none, how many bytes were written, how many blocks the
// list has, and the list, which comes on a refusal too.
#[repr(C)]
#[derive(Clone, Copy)]
pub struct Salvaged {
    pub refusal: Refusal,
    pub written: u32,
    pub blocks: u32,
    pub fates: [Fate; 8],
}

// Blocks gone through: the places in the file of those that are kept, and the list.
#[derive(Clone, Copy)]
pub struct Sifted {
    pub kept: Kept,
    pub fates: [Fate; 8],
}

// How many blocks of a file of so many bytes are listed.
fn listed_in(size: usize) -> usize
    ensures { result ≡ listed_in size }
{
    if size <= blockfile::MOST_BYTES {
        size / layout::SIZE
    } else {
        0
    }
}

// Whether salvage does not refuse, or the number that it refuses by, for a file and an output of so many bytes and so
// many kept blocks.
#[tactic(auto, unfolding(crate::specs::Outcome::salvage_number, lists::specs::Refusals::refusal, lists::specs::Refusals::unless))]
fn salvage_number(size: usize, kept: usize, room: usize) -> Result<(), u32>
    requires { kept ≤ most_guests }
    ensures { result ≡ unless_number (salvage_number size kept room) tt }
{
    if blockfile::MOST_BYTES < size {
        return Err(1);
    }
    if room < layout::SIZE * kept {
        return Err(12);
    }
    if kept < 1 {
        return Err(20);
    }
    Ok(())
}

// The answer: a refusal's number or 0, the bytes of so many blocks, and the list.
fn told(number: u32, written: usize, blocks: usize, fates: [Fate; 8]) -> Salvaged
    requires { (written ≤ most_guests) × (blocks ≤ most_guests) }
    ensures { result ≡ answer_of number written blocks fates }
{
    Salvaged {
        refusal: Refusal { number, place: 0 },
        written: (layout::SIZE * written) as u32,
        blocks: blocks as u32,
        fates,
    }
}

// Writes the kept blocks of the file, moved up, to the first bytes of the output; a refusal writes nothing.
pub fn salvage(file: &[u8], out: &mut [u8]) -> Salvaged
    ensures { Salvages file.now out.old result out.new }
{
    let n = listed_in(file.len());
    let sifted = sifter::sift(file, n);
    let kept = sifted.kept.places();
    if let Err(number) = salvage_number(file.len(), kept.len(), out.len()) {
        return told(number, 0, n, sifted.fates);
    }
    mover::put_moved_up(file, kept, out);
    told(0, kept.len(), n, sifted.fates)
}
