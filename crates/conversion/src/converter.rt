// Blocks converted into the output. It meets specs/Converting.antt.
ghost use Rattle.std.specs.Prelude.{◌≡◌, ◌++◌, ℕ, ◌*◌, ◌≤◌, ◌<◌, length, drop};
ghost use Rattle.plan.specs.Ranges.{most_guests, most_tasks};
ghost use Rattle.block.specs.Layout.{block_size};
ghost use Rattle.block.specs.Reading.{task_count};
ghost use Rattle.blockfile.specs.File.{block_at, blocks_in};
ghost use Rattle.conversion.specs.Converting.{converted_block, converted_bytes};

use block::layout::SIZE;

// Block k with its guest made Periodic, put into the first 512 bytes.
fn put_periodic(bytes: &[u8], k: usize, out: &mut [u8])
    requires { ((k < most_guests) × (k < blocks_in bytes.now))
        × ((task_count (block_at bytes.now k) ≤ most_tasks) × (block_size ≤ length out.old)) }
    ensures { out.new ≡ converted_block (block_at bytes.now k) k ++ drop block_size out.old }
{
    let mut guest = blockfile::guest_at(bytes, k);
    guest.deferrable = 0;
    blockwriter::put_block(&guest, k as u32, out);
}

// Every block converted, put in one after the other.
pub fn put_converted(bytes: &[u8], out: &mut [u8])
    requires { ((blocks_in bytes.now ≤ most_guests) × (block_size * blocks_in bytes.now ≤ length out.old))
        × ((k : ℕ) → k < blocks_in bytes.now → task_count (block_at bytes.now k) ≤ most_tasks) }
    ensures { out.new
        ≡ converted_bytes bytes.now ++ drop (block_size * blocks_in bytes.now) out.old }
{
    for k in 0..bytes.len() / SIZE {
        put_periodic(bytes, k, &mut out[SIZE * k..]);
    }
}
