// What an entry takes at most (document 01, "Spans, marks and order").

pub const MOST_FRAMES: usize = 64;

pub const MOST_BYTES: usize = 2048;
