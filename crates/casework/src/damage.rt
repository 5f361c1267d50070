// Words of a plan's bytes changed, the checks of their blocks made right again or left as they were.
use block::layout;
use draft::text::Row;

// A word of a block set, and the block's check made right again if that is asked and the word is not the check itself.
fn set(block: &mut [u8], word: usize, value: u32, mended: bool) {
    if (word < layout::WORDS) & (layout::SIZE <= block.len()) {
        words::put_word(block, word, value);
        if mended & (word < layout::CHECK) {
            let sum = words::sum_words(block, layout::CHECK);
            words::put_word(block, layout::CHECK, words::complement_of(sum));
        }
    }
}

// The same of the block at a place, of eight at most.
fn set_at(buf: &mut [u8], place: u32, word: u32, value: u32, mended: bool) {
    if place <= layout::LAST_PLACE {
        let at = buf.len().min(layout::SIZE * place as usize);
        set(&mut buf[at..], word as usize, value, mended);
    }
}

// Block, word and value of one change, or of two.
pub fn damage(buf: &mut [u8], row: Row) {
    let x = row.numbers;
    let mended = row.first == b'd';
    if mended | (row.first == b'u') {
        set_at(buf, x[0], x[1], x[2], mended);
        if 3 < row.count {
            set_at(buf, x[3], x[4], x[5], mended);
        }
    }
}
