// Blocks one after the other: the refusal of reading them, one of them by its place or its id, and their records.
// Inner.
#![tactic(auto)]

mod files;
mod guests;

pub use files::{MOST_BYTES, block_at, check_blocks, first_with, id_at};
pub use guests::{guest_at, records_of};
