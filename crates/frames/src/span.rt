// A stretch of frames, from its start up to but not including its end.

#[derive(Clone, Copy)]
pub struct Span {
    pub start: u32,
    pub end: u32,
}
