// The tables of a stage that its search reads; specs/Tables.antt says what each entry is. Each table by boundary has room for the most
// boundaries, and its entries after those of the stage's boundaries are 0.

use crate::by_strictness::ByStrictness;
use frames::span::Span;
use limits::capacity::{MOST_BOUNDARIES, UNIT_COUNTS};
use limits::common::DURATIONS;

// Of the units that end at each boundary the lowest origin; and where their origins end: one past the highest of those that hold an anchor,
// and of all.
#[derive(Clone, Copy)]
pub struct Origins {
    pub low: [u32; MOST_BOUNDARIES],
    pub ends: ByStrictness<MOST_BOUNDARIES>,
}

// The frame of each boundary, the origins of the units that end there, and the score row and span of the last kept anchor before it; and by
// count of units, the first boundary reached.
#[derive(Clone, Copy)]
pub struct StageWords {
    pub bounds: [u32; MOST_BOUNDARIES],
    pub origins: Origins,
    pub rows: [u32; MOST_BOUNDARIES],
    pub spans: [Span; MOST_BOUNDARIES],
    pub since: ByStrictness<UNIT_COUNTS>,
}

// The filler costs at each boundary: of the start, negated, of the gap to the next boundary and of the end.
#[derive(Clone, Copy)]
pub struct FillerCosts {
    pub start: [f64; MOST_BOUNDARIES],
    pub gap: [f64; MOST_BOUNDARIES],
    pub stop: [f64; MOST_BOUNDARIES],
}

// The filler costs, and the duration of each length of a unit.
#[derive(Clone, Copy)]
pub struct StageFigures {
    pub filler: FillerCosts,
    pub durations: [f64; DURATIONS],
}

#[derive(Clone, Copy)]
pub struct StageTables {
    pub words: StageWords,
    pub figures: StageFigures,
}

// What stands for the span of an anchor where there is none, which is not read, as the row of `entry_before` is not.
pub const NO_SPAN: Span = Span { start: 0, end: 0 };

// Tables before anything is laid in them.
const NO_ORIGINS: Origins = Origins {
    low: [0; MOST_BOUNDARIES],
    ends: ByStrictness {
        strict: [0; MOST_BOUNDARIES],
        relaxed: [0; MOST_BOUNDARIES],
    },
};

pub const NO_WORDS: StageWords = StageWords {
    bounds: [0; MOST_BOUNDARIES],
    origins: NO_ORIGINS,
    rows: [0; MOST_BOUNDARIES],
    spans: [NO_SPAN; MOST_BOUNDARIES],
    since: ByStrictness {
        strict: [0; UNIT_COUNTS],
        relaxed: [0; UNIT_COUNTS],
    },
};

pub const NO_COSTS: FillerCosts = FillerCosts {
    start: [0.0; MOST_BOUNDARIES],
    gap: [0.0; MOST_BOUNDARIES],
    stop: [0.0; MOST_BOUNDARIES],
};

pub const NO_TABLES: StageTables = StageTables {
    words: NO_WORDS,
    figures: StageFigures {
        filler: NO_COSTS,
        durations: [0.0; DURATIONS],
    },
};
