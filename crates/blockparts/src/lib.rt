// What plan blocks and log blocks have in common when they are written: an entry of three words, and the check. Inner.
// The buffer is a slice and no array of 512, since the promises say what stands behind the block too.
#![tactic(auto)]

ghost use Rattle.std.specs.Prelude.{◌≡◌, ◌+◌, ◌*◌, ◌≤◌, length};
ghost use Rattle.words.specs.Word.{word};
ghost use Rattle.words.specs.Bytes.{with_word};
ghost use Rattle.words.specs.Wrap.{wrapped, complement};
ghost use Rattle.block.specs.Layout.{block_size, entry_words, check_word};

use block::layout;

// The three numbers of entry i put in; the first entry starts at word `first`.
pub fn put_entry(buf: &mut [u8], first: usize, i: usize, a: u32, b: u32, c: u32)
    requires { (block_size ≤ length buf.old) × (first + entry_words * i + entry_words ≤ check_word) }
    ensures { buf.new
        ≡ with_word
        (with_word (with_word buf.old (first + entry_words * i) a) (first + 1 + entry_words * i) b)
        (first + 2 + entry_words * i) c }
{
    words::put_word(buf, first + layout::ENTRY * i, a);
    words::put_word(buf, first + 1 + layout::ENTRY * i, b);
    words::put_word(buf, first + 2 + layout::ENTRY * i, c);
}

// The check put in.
pub fn put_check(buf: &mut [u8])
    requires { block_size ≤ length buf.old }
    ensures { buf.new
        ≡ with_word buf.old check_word (complement (wrapped (word buf.old) check_word)) }
{
    let sum = words::sum_words(buf, layout::CHECK);
    words::put_word(buf, layout::CHECK, words::complement_of(sum));
}
