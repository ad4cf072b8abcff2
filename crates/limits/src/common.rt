// Numbers that every edition shares; specs/Common.antt says which sentences they are from.

pub const LAST_FRAME: u32 = 4095;

// Stands for a frame or a row that there is none of. No frame is as high.
pub const ABSENT: u32 = 4294967295;

pub const SHORTEST_UNIT: usize = 6;

pub const LONGEST_UNIT: usize = 80;

// how many durations a table has, one for each length of a unit
pub const DURATIONS: usize = LONGEST_UNIT - SHORTEST_UNIT + 1;
