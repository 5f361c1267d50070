// Refusals over lent arrays: refusal 14's test of a state, and a release's order of refusals.
#![tactic(auto)]

mod aiming;
mod ranges;
mod validating;

pub use aiming::aim_by_id;
use plan::Columns;
pub use validating::examine;

// A state's numbers, lent to be looked at: two of each guest and three of each of its 16 places.
#[derive(Clone, Copy)]
pub struct Lent<'a> {
    pub left: &'a [u32; 8],
    pub position: &'a [u32; 8],
    pub rest: &'a [u32; 128],
    pub wait: &'a [u32; 128],
    pub age: &'a [u32; 128],
}

// What stands in columns before they are lent to be filled.
pub const NO_COLUMNS: Columns = Columns {
    ids: [0; 16],
    capacities: [0; 16],
    periods: [0; 16],
    tasks: [0; 16],
    deferrable: [0; 16],
};

// The place that a release is for, with the run and the wait that it sets there.
#[derive(Clone, Copy)]
pub struct Aim {
    pub at: usize,
    pub run: u32,
    pub every: u32,
}
