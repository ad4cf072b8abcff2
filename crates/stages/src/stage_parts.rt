// The parts of a stage that its tables are made from.

ghost use Rattle.std.specs.Prelude.{ℕ, ◌+◌, ◌<◌, ◌^◌, length, slice_index};
ghost use Rattle.limits.specs.Capacity.{most_anchors};
ghost use Rattle.stages.specs.Parts.{Fit, FitList};

// The mask, the listed anchors with the score row of the first, and the boundaries.
#[derive(Clone, Copy)]
pub struct StageParts<'a> {
    pub mask: &'a [u8],
    pub anchors: &'a [u32],
    pub first_row: u32,
    pub bounds: &'a [u32],
    ghost fit: { Fit mask.now bounds.now },
    ghost listed: { FitList most_anchors anchors.now },
    ghost numbered: { first_row + length anchors.now < 2 ^ 32 },
    ghost bounded: { (j : ℕ) → j < length bounds.now → slice_index bounds.now j < 2 ^ 32 },
}
