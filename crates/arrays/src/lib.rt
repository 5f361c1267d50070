// The dispatcher's numbers in lent arrays: the parts of a tick, and where it went.
#![tactic(auto, using(lists::proofs::Places::up_to_none, lists::proofs::Places::up_to_next))]

mod jobs;
mod search;
mod server;
mod usage;

pub use jobs::{fall, grow, worker};
pub use server::{advance, holder, refill};
pub use usage::tally;
