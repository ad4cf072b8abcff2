// A unit of a path: the frames that it is given, and the row of its anchor, where it has one.

use crate::span::Span;

#[derive(Clone, Copy)]
pub struct PlacedUnit {
    pub span: Span,
    pub row: Option<u32>,
}
