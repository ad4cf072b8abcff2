// What a reader of a record is asked for, and what it answers, where that is no number.

// A stage, by the Rust's word: the nuclei's or the added one.
#[derive(Clone, Copy)]
pub enum Which {
    Nuclei,
    Count,
}

// The speech edges of a record that has some.
#[derive(Clone, Copy)]
pub struct Edges {
    pub start: u32,
    pub end: u32,
}
