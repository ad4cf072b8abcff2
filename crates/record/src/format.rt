// Lengths of a record's parts and where their fields stand; specs/Format.antt says which sentences they are from.

use limits::common::DURATIONS;

pub const TRAILER_BYTES: usize = 64;

pub const RECORD_BYTES: usize = 65536;

// the fields of the costs block behind its first, `per_frame`
pub const INSERTION_AT: usize = 8;

pub const UNVOICED_AT: usize = 16;

pub const SPEECH_START_AT: usize = 20;

pub const SPEECH_END_AT: usize = 24;

pub const FIRST_TABLE_AT: usize = 28;

pub const TABLE_BYTES: usize = 8 * DURATIONS;

pub const SECOND_TABLE_AT: usize = FIRST_TABLE_AT + TABLE_BYTES;

pub const COSTS_BYTES: usize = SECOND_TABLE_AT + TABLE_BYTES;
