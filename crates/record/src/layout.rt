// Where the sections of a record stand: what decoding reads it by.

// A section's count and the place of its first byte. Of the scores it is the number of columns.
#[derive(Clone, Copy)]
pub struct Section {
    pub count: usize,
    pub start: usize,
}

// `edition` is the number that the trailer gives; `costs` is the place of the costs block, which has no count.
#[derive(Clone, Copy)]
pub struct Layout {
    pub edition: usize,
    pub mask: Section,
    pub nuclei: Section,
    pub boundaries: Section,
    pub added_anchors: Section,
    pub added_boundaries: Section,
    pub scores: Section,
    pub candidates: Section,
    pub costs: usize,
}
