// The public entries for C and Rust: numbers and structs by value, the case of an enum as a number. C has neither enums
// with values nor Results, so a refusal's number, 0 for none, stands beside the values.
// Of what the finder gives, the place alone crosses.
#![tactic(auto)]

use dispatcher::Dispatcher;
use plan::Refusal;

mod amending;
mod blocks;
mod choosing;
mod converting;
mod dispatching;
mod judging;
mod ordering;
mod placing;
mod salvaging;
mod stating;
mod telling;

// A verdict with its ticks under number 0, or a refusal's number and place with both 0.
#[repr(C)]
#[derive(Clone, Copy)]
pub struct Verdict {
    pub number: u32,
    pub place: u32,
    pub verdict: u32,
    pub ticks: u32,
}

// Who had a tick, by its kind; a field that means nothing for the kind is 0.
#[repr(C)]
#[derive(Clone, Copy)]
pub struct Told {
    pub kind: u32,
    pub guest: u32,
    pub task: u32,
    pub age: u32,
    pub margin: i32,
}

// What one tick gives: the next state, the refusal or number 0, and who had the tick.
#[repr(C)]
#[derive(Clone, Copy)]
pub struct Tick {
    pub state: Dispatcher,
    pub refusal: Refusal,
    pub answer: Told,
}

// What a run gives: the refusal or number 0, the ticks done, who had the last of them, and the next state.
#[repr(C)]
#[derive(Clone, Copy)]
pub struct Run {
    pub refusal: Refusal,
    pub done: u32,
    pub answer: Told,
    pub state: Dispatcher,
}

// What one tick in place gives: the number of its refusal, or 0, and who had the tick.
#[repr(C)]
#[derive(Clone, Copy)]
pub struct TickIn {
    pub number: u32,
    pub answer: Told,
}

// What a run in place gives: the number of its refusal, or 0, the ticks done, and who had the last of them.
#[repr(C)]
#[derive(Clone, Copy)]
pub struct RunIn {
    pub number: u32,
    pub done: u32,
    pub answer: Told,
}
