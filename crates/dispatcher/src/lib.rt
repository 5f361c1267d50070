// The dispatcher: its state by value, and the calls that take it and give it back.
#![tactic(auto)]

mod answering;
mod releasing;
mod running;
mod starting;
mod ticking;

use plan::{Plan, Refusal};
pub use releasing::release_in; // Inner: for the calls in place, as the two below.
pub use running::run_in; // Inner: as above.
pub use starting::start_in; // Inner: as above.

// The plan's records; for each guest the capacity left and the position in its period;
// for task t of guest g, at place 16 g + t, the run left, the wait and the age.
// Beside them where the ticks went: guest g's at place g, those of them that it idled away at 8 + g, nobody's at 16.
// It crosses to C as it is.
#[repr(C)]
#[derive(Clone, Copy)]
pub struct Dispatcher {
    pub plan: Plan,
    pub usage: [u64; 17],
    pub left: [u32; 8],
    pub position: [u32; 8],
    pub rest: [u32; 128],
    pub wait: [u32; 128],
    pub age: [u32; 128],
}

// Who had a tick: nobody; a guest that idled it away; a task; a task that finished, with its age and margin.
// Silent where there was no tick.
#[derive(Clone, Copy)]
pub enum Answer {
    Silent,
    Nobody,
    Idled(u32),
    Worked(u32, u32),
    Finished {
        guest: u32,
        task: u32,
        age: u32,
        margin: i32,
    },
}

// What a run over lent arrays gives beside them, where it is not refused: how many ticks were done, and the last one's
// answer.
#[derive(Clone, Copy)]
pub struct RunOutcome {
    pub done: u32,
    pub answer: Answer,
}

// What a fresh start gives, as it crosses to C. Here and below the state comes back on a refusal too, whose number is 0
// where there is none: a Result would hold it in one case alone.
#[repr(C)]
#[derive(Clone, Copy)]
pub struct Started {
    pub refusal: Refusal,
    pub state: Dispatcher,
}

// What a release gives, as it crosses to C.
#[repr(C)]
#[derive(Clone, Copy)]
pub struct Released {
    pub refusal: Refusal,
    pub state: Dispatcher,
}

// What a tick gives: as above, and who had it.
#[derive(Clone, Copy)]
pub struct Ticked {
    pub state: Dispatcher,
    pub refusal: Refusal,
    pub answer: Answer,
}

// What a run gives: as above, and how many ticks were done.
#[derive(Clone, Copy)]
pub struct Ran {
    pub refusal: Refusal,
    pub done: u32,
    pub answer: Answer,
    pub state: Dispatcher,
}
