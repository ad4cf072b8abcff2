// What the trailer of a record says: the last 64 bytes, sixteen u32.

// What the trailer says of a section: its count and its back pointer.
#[derive(Clone, Copy)]
pub struct Mark {
    pub count: usize,
    pub back: usize,
}

#[derive(Clone, Copy)]
pub struct Trailer {
    pub edition: usize,
    pub mask: Mark,
    pub nuclei: Mark,
    pub boundaries: Mark,
    pub added_anchors: Mark,
    pub added_boundaries: Mark,
    pub scores: Mark,
    pub candidates: Mark,
    pub costs: usize,
}
