// The layout of a guest's block of 512 bytes, and one read into a record. Inner.
#![tactic(auto)]

pub mod layout;
mod reader;

pub use reader::{block_number, decode, id_of, kind_of, place_of, zero_between};
