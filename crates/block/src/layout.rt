// Where the numbers of a block stand, in words, as specs/Layout.antt has it; its size alone is in bytes.

pub const SIZE: usize = 512;

pub const WORDS: usize = 128;

pub const KIND_PLACE: usize = 0;

pub const PLAIN_KIND: u32 = 1;

pub const EXTENDED_KIND: u32 = 2;

pub const LAST_PLACE: u32 = 7;

pub const ID: usize = 1;

pub const CAPACITY: usize = 2;

pub const PERIOD: usize = 3;

pub const TASKS_CHARGE: usize = 4;

pub const MARKS_SERVER: usize = 5;

pub const DEFERRABLE_SERVER: u32 = 1;

pub const SPARE_FROM: usize = 6;

pub const SPARE_TO: usize = 8;

pub const ENTRY: usize = 3;

pub const RUN: usize = 8;

pub const EVERY: usize = 9;

pub const DEADLINE: usize = 10;

pub const CHECK: usize = 127;

pub const HALF: u32 = 65536;

pub const BYTE: u32 = 256;
