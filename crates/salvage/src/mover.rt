// Kept blocks moved up into the output. It meets specs/Moving.antt.
ghost use Rattle.std.specs.Prelude.{◌≡◌, ℕ, ◌*◌, ◌<◌, ◌≤◌, true, ◌++◌, length, drop};
ghost use Rattle.lists.specs.Places.{nth};
ghost use Rattle.plan.specs.Ranges.{most_guests};
ghost use Rattle.words.specs.Word.{word};
ghost use Rattle.words.specs.Bytes.{with_word};
ghost use Rattle.words.specs.Wrap.{wrapped, complement};
ghost use Rattle.block.specs.Layout.{block_size, kind_place_word, last_place, check_word, halves};
ghost use Rattle.block.specs.Reading.{kind_in, sums_to_zero};
ghost use Rattle.blockfile.specs.File.{block_at, blocks_in};
ghost use Rattle.salvage.specs.Moving.{moved, moved_up};

use block::layout;
use block::layout::SIZE;

// The opening of a block that stands at this place: its kind as it is, and the place.
fn opening_at(block: &[u8; SIZE], place: u32) -> u32
    requires { place ≤ last_place }
    ensures { result ≡ halves (kind_in block.now) place }
{
    block::kind_of(block) + layout::HALF * place
}

// The check of a block with this opening in it. The block's words sum to zero, so it is the old check and the old
// opening less the new one, and no word is summed again.
fn check_with(block: &[u8; SIZE], opening: u32) -> u32
    requires { sums_to_zero block.now ≡ true }
    ensures { result ≡ complement (wrapped (word (with_word block.now kind_place_word opening)) check_word) }
{
    let check = words::word_at(block, layout::CHECK);
    let old = words::word_at(block, layout::KIND_PLACE);
    check.wrapping_add(old).wrapping_sub(opening)
}

// A block put into the first 512 bytes as it is. Not by `copy_from_slice`, since of that the compiler makes memmove, which
// a host without a C library would have to bring for this call alone.
fn copy_block(block: &[u8; SIZE], out: &mut [u8])
    requires { block_size ≤ length out.old }
    ensures { out.new ≡ block.now ++ drop block_size out.old }
{
    for i in 0..SIZE {
        out[i] = block[i];
    }
}

// A block put into the first 512 bytes, moved to a place.
fn put_moved(block: &[u8; SIZE], place: u32, out: &mut [u8])
    requires { (sums_to_zero block.now ≡ true) × ((place ≤ last_place) × (block_size ≤ length out.old)) }
    ensures { out.new ≡ moved block.now place ++ drop block_size out.old }
{
    let opening = opening_at(block, place);
    let check = check_with(block, opening);
    copy_block(block, out);
    words::put_word(out, layout::KIND_PLACE, opening);
    words::put_word(out, layout::CHECK, check);
}

// The blocks at these places put into the output, moved up.
pub fn put_moved_up(file: &[u8], kept: &[usize], out: &mut [u8])
    requires { ((length kept.now ≤ most_guests) × (block_size * length kept.now ≤ length out.old))
        × ((j : ℕ) → j < length kept.now
        → (nth kept.now j < blocks_in file.now) × (sums_to_zero (block_at file.now (nth kept.now j)) ≡ true)) }
    ensures { out.new ≡ moved_up file.now kept.now ++ drop (block_size * length kept.now) out.old }
{
    for (j, from) in kept.iter().enumerate() {
        put_moved(
            blockfile::block_at(file, *from),
            j as u32,
            &mut out[SIZE * j..],
        );
    }
}
