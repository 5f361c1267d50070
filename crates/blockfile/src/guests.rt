// The records of the blocks.
ghost use Rattle.std.specs.Prelude.{◌≡◌, ◌≤◌, ◌<◌};
ghost use Rattle.plan.specs.Ranges.{most_guests};
ghost use Rattle.block.specs.Reading.{guest_of};
ghost use Rattle.blockfile.specs.File.{block_at, blocks_in};
ghost use Rattle.blockfile.specs.Records.{records_of};

use crate::files::block_at;
use plan::Guest;

// The record of block k. It is taken into its callers, since a record of 216 bytes is more to hand on than to make.
#[inline(always)]
pub fn guest_at(s: &[u8], k: usize) -> Guest
    requires { k < blocks_in s.now }
    ensures { result ≡ guest_of (block_at s.now k) }
{
    block::decode(block_at(s, k))
}

// The records of the first n blocks, and records of zeros. Taken into its callers likewise.
#[inline(always)]
pub fn records_of(s: &[u8], n: usize) -> [Guest; 8]
    requires { (n ≤ most_guests) × (n ≤ blocks_in s.now) }
    ensures { result ≡ records_of (block_at s.now) n }
{
    let mut guests = [plan::blank_guest(); 8];
    for k in 0..n {
        guests[k] = guest_at(s, k);
    }
    guests
}
