// What a release asks of its guest's marks, and what a taken one sets, gathered from the records of a plan.
#![tactic(auto)]

mod columns;

pub use columns::put_jobs;

// For each guest the marks of the tasks that may not be released where it stands, and whether there are none.
// No Option of a column: the contracts of a sheet speak of the column also where it is clear.
#[derive(Clone, Copy)]
pub struct Bars {
    pub barred: [u16; 16],
    pub clear: bool,
}
