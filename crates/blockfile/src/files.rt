// Bytes block by block: one of them, the refusal of reading them, and the first with an id.
ghost use Rattle.std.specs.Prelude.{◌≡◌, not, ◌||◌, ◌≤◌, ◌<◌};
ghost use Rattle.plan.specs.Ranges.{most_guests};
ghost use Rattle.lists.specs.Refusals.{unless_number};
ghost use Rattle.plan.specs.First.{first_refused, unless_refused};
ghost use Rattle.plan.specs.Order.{new_id};
ghost use Rattle.block.specs.Reading.{own_place};
ghost use Rattle.blockfile.specs.File.{block_at, id_at, blocks_in, size_ok, number_at, blocks_refusal, first_with};

use block::layout::SIZE;
use plan::Refusal;

// The length of 8 blocks.
pub const MOST_BYTES: usize = 8 * SIZE;

// Refusal 1's test.
pub fn size_ok(n: usize) -> bool
    ensures { result ≡ size_ok n }
{
    (1..=MOST_BYTES).contains(&n) && n % SIZE == 0
}

// Block k of the bytes, a part of them.
pub fn block_at(s: &[u8], k: usize) -> &[u8; SIZE]
    requires { k < blocks_in s.now }
    ensures { result.now ≡ block_at s.now k }
{
    s[SIZE * k..].first_chunk().unwrap()
}

// The guest id in block k.
pub fn id_at(s: &[u8], k: usize) -> u32
    requires { k < blocks_in s.now }
    ensures { result ≡ id_at s.now k }
{
    block::id_of(block_at(s, k))
}

// Whether block k's id is no earlier block's.
fn is_new(s: &[u8], k: usize) -> bool
    requires { k < blocks_in s.now }
    ensures { result ≡ new_id (id_at s.now) k }
{
    let id = id_at(s, k);
    (0..k).all(|j| id_at(s, j) != id)
}

// Whether block k's place passes: where places count, it is its own.
fn place_passes(s: &[u8], k: usize, placed: bool) -> bool
    requires { (k < most_guests) × (k < blocks_in s.now) }
    ensures { result ≡ (not placed || own_place (block_at s.now k) k) }
{
    !placed || block::place_of(block_at(s, k)) == k as u32
}

// Whether block k passes, or else the number that refuses it.
#[tactic(auto, unfolding(crate::specs::File::number_at))]
fn check_block(s: &[u8], k: usize, placed: bool) -> Result<(), u32>
    requires { (k < most_guests) × (k < blocks_in s.now) }
    ensures { result ≡ unless_number (number_at placed s.now k) tt }
{
    block::block_number(block_at(s, k), place_passes(s, k, placed), is_new(s, k))
}

// Whether the first n blocks pass, or else the first refusal.
fn check_first(s: &[u8], n: usize, placed: bool) -> Result<(), Refusal>
    requires { (n ≤ most_guests) × (n ≤ blocks_in s.now) }
    ensures { result ≡ unless_refused (first_refused (number_at placed s.now) n 0) tt }
{
    for k in 0..n {
        if let Err(number) = check_block(s, k, placed) {
            return Err(Refusal {
                number,
                place: k as u32,
            });
        }
    }
    Ok(())
}

// Whether blocks pass, or else their refusal; `placed` says whether their places count.
pub fn check_blocks(s: &[u8], placed: bool) -> Result<(), Refusal>
    ensures { result ≡ unless_refused (blocks_refusal placed s.now) tt }
{
    if !size_ok(s.len()) {
        return Err(Refusal {
            number: 1,
            place: 0,
        });
    }
    check_first(s, s.len() / SIZE, placed)
}

// The first block that has the id.
pub fn first_with(s: &[u8], id: u32) -> Option<u32>
    requires { blocks_in s.now ≤ most_guests }
    ensures { result ≡ first_with s.now id }
{
    let n = (s.len() / SIZE) as u32;
    (0..n).find(|k| id_at(s, *k as usize) == id)
}
