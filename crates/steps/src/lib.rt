// Ticks over lent arrays: one, and one after the other.
#![tactic(auto)]

mod running;
mod stepping;

pub use running::steps;

// Who had a tick, as a step notes it: the guest's place and its task's, and the run left that the task had. Three
// numbers and no enum, since the definitions of a step (`Serves`, `StepsOn`) speak of them: nobody is a place past the
// guests.
#[derive(Clone, Copy)]
pub struct Turn {
    pub guest: usize,
    pub task: usize,
    pub had: u32,
}

// How many steps were done, and who had the last of them.
#[derive(Clone, Copy)]
pub struct Went {
    pub done: u32,
    pub turn: Turn,
}
