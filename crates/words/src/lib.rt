// Little-endian words in lent bytes: read, written, and summed modulo 2 to the 32.
#![tactic(auto)]

ghost use Rattle.std.specs.Prelude.{◌≡◌, ◌+◌, ◌*◌, ◌≤◌, ◌++◌, length, drop, replicate};
ghost use Rattle.words.specs.Word.{u32_at, word};
ghost use Rattle.words.specs.Bytes.{with_u32, with_word};
ghost use Rattle.words.specs.Wrap.{wrapped, complement};

// The word whose bytes start at i.
pub fn get_u32(b: &[u8], i: usize) -> u32
    requires { i + 4 ≤ length b.now }
    ensures { result ≡ u32_at b.now i }
{
    u32::from_le_bytes([b[i], b[i + 1], b[i + 2], b[i + 3]])
}

// Word k.
pub fn word_at(b: &[u8], k: usize) -> u32
    requires { 4 * k + 4 ≤ length b.now }
    ensures { result ≡ word b.now k }
{
    get_u32(b, 4 * k)
}

// The word w put where its bytes start at i.
pub fn put_u32(b: &mut [u8], i: usize, w: u32)
    requires { i + 4 ≤ length b.old }
    ensures { b.new ≡ with_u32 b.old i w }
{
    b[i..i + 4].copy_from_slice(&w.to_le_bytes());
}

// Word k set to w.
pub fn put_word(b: &mut [u8], k: usize, w: u32)
    requires { 4 * k + 4 ≤ length b.old }
    ensures { b.new ≡ with_word b.old k w }
{
    put_u32(b, 4 * k, w)
}

// The sum of the first n words of the bytes.
pub fn sum_words(b: &[u8], n: usize) -> u32
    requires { (n ≤ 128) × (4 * n ≤ length b.now) }
    ensures { result ≡ wrapped (word b.now) n }
{
    let mut sum: u32 = 0;
    for k in 0..n {
        sum = sum.wrapping_add(word_at(b, k));
    }
    sum
}

// The word that makes a sum zero.
pub fn complement_of(sum: u32) -> u32
    ensures { result ≡ complement sum }
{
    0u32.wrapping_sub(sum)
}

// The first n bytes set to zero.
pub fn put_zeros(b: &mut [u8], n: usize)
    requires { n ≤ length b.old }
    ensures { b.new ≡ replicate n 0 ++ drop n b.old }
{
    b[..n].fill(0);
}
