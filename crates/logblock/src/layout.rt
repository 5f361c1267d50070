// Where the numbers of a log block stand, in words, as specs/Layout.antt has it.

pub const KIND_JOBS: usize = 0;

pub const LOG_KIND: u32 = 3;

pub const MOST_JOBS: u32 = 41;

pub const BLANK: usize = 1;

pub const GUEST: usize = 2;

pub const TASK: usize = 3;

pub const AGE: usize = 4;
