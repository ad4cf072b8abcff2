// What the code has room for: the lengths of its arrays. No edition allows more.

pub const MOST_UNITS: usize = 16;

pub const MOST_BOUNDARIES: usize = 64;

// of a stage, nuclei included
pub const MOST_ANCHORS: usize = 64;

pub const MOST_CANDIDATES: usize = 16;

// the counts of units, none included
pub const UNIT_COUNTS: usize = MOST_UNITS + 1;

// the cells of a work area
pub const MOST_CELLS: usize = UNIT_COUNTS * MOST_BOUNDARIES;

// the boundaries, and the mask's end
pub const MOST_EDGES: usize = MOST_BOUNDARIES + 1;

// the anchors, and two frames beyond them
pub const ANCHOR_ROOM: usize = MOST_ANCHORS + 2;
