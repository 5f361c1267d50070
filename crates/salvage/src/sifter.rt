// The blocks of a file gone through once: which are kept, and what becomes of each. It meets specs/Keeping.antt,
// specs/Fates.antt and specs/Sifting.antt.
ghost use Rattle.std.specs.Prelude.{◌≡◌, ℕ, ◌<◌, ◌≤◌, length};
ghost use Rattle.lists.specs.Places.{nth};
ghost use Rattle.lists.specs.Refusals.{unless_number};
ghost use Rattle.plan.specs.Ranges.{most_guests};
ghost use Rattle.blockfile.specs.File.{blocks_in};
ghost use Rattle.salvage.specs.Keeping.{new_among, number_after};
ghost use Rattle.salvage.specs.Sifting.{Sifts};

use crate::kept::Kept;
use crate::{Fate, Sifted};

// Whether the id of block k is none of those of the kept blocks.
fn new_among(file: &[u8], kept: &[usize], k: usize) -> bool
    requires { (k < blocks_in file.now) × ((j : ℕ) → j < length kept.now → nth kept.now j < blocks_in file.now) }
    ensures { result ≡ new_among file.now kept.now k }
{
    let id = blockfile::id_at(file, k);
    for j in kept {
        if blockfile::id_at(file, *j) == id {
            return false;
        }
    }
    true
}

// Whether block k is kept after these, or else the number that it is dropped by.
#[tactic(auto, unfolding(crate::specs::Keeping::number_after))]
fn number_after(file: &[u8], kept: &[usize], k: usize) -> Result<(), u32>
    requires { (k < blocks_in file.now) × ((j : ℕ) → j < length kept.now → nth kept.now j < blocks_in file.now) }
    ensures { result ≡ unless_number (number_after file.now kept.now k) tt }
{
    block::block_number(blockfile::block_at(file, k), true, new_among(file, kept, k))
}

// The first n blocks gone through.
pub fn sift(file: &[u8], n: usize) -> Sifted
    requires { (n ≤ most_guests) × (n ≤ blocks_in file.now) }
    ensures { Sifts file.now n result }
{
    let mut kept = Kept::none();
    let mut fates = [Fate {
        number: 0,
        place: 0,
    }; 8];
    for k in 0..n {
        let before = kept.places();
        match number_after(file, before, k) {
            Ok(()) => {
                fates[k] = Fate {
                    number: 0,
                    place: before.len() as u32,
                };
                kept.push(k);
            }
            Err(number) => fates[k] = Fate { number, place: 0 },
        }
    }
    Sifted { kept, fates }
}
