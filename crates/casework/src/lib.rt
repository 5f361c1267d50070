// What the programs of stored cases share: lines and refusals written, and bytes damaged.
#![tactic(auto)]

pub mod damage;
pub mod say;
