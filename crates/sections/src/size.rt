// Refusals 1 to 4: the record's size and edition, its counts and its back pointers. A trailer and the limits of its edition are two parameters:
// `limits_of` has the one from the other, and a struct of both would be made in one place, for these three calls.

ghost use Rattle.std.specs.Prelude.{◌≡◌};
ghost use Rattle.limits.specs.Inner.Moderate.{Moderate};
ghost use Rattle.record.specs.Inner.Bounds.{Sized};
ghost use Rattle.record.specs.Conditions.{stub, other_edition, oversized, outside, overreaching};

use limits::edition::Limits;
use record::format::{COSTS_BYTES, RECORD_BYTES, TRAILER_BYTES};
use record::trailer::Trailer;

pub fn stub(bytes: &[u8]) -> bool
    ensures { result ≡ stub bytes.now }
{
    (bytes.len() < TRAILER_BYTES) | (bytes.len() > RECORD_BYTES)
}

pub fn other_edition(limits: Limits, t: Trailer) -> bool
    ensures { result ≡ other_edition limits t }
{
    t.edition != limits.edition
}

#[tactic(auto, unfolding(record::specs::Conditions::oversized))]
pub fn oversized(limits: Limits, t: Trailer) -> bool
    ensures { result ≡ oversized limits t }
{
    (t.mask.count > limits.frames)
        | (t.nuclei.count > limits.nuclei)
        | (t.boundaries.count > limits.boundaries)
        | (t.added_anchors.count > limits.anchors)
        | (t.added_boundaries.count > limits.boundaries)
        | (t.scores.count > limits.columns)
        | (t.candidates.count > limits.candidates)
        | (t.scores.count == 0)
        | ((t.added_anchors.count == 0) & (t.added_boundaries.count > 0))
}

// A section of `long` bytes that `back` bytes before `end` does not hold, or that starts before the record.
fn outside(end: usize, long: usize, back: usize) -> bool
    ensures { result ≡ outside end long back }
{
    (back < long) | (back > end)
}

#[tactic(auto, unfolding(record::specs::Conditions::overreaching))]
pub fn overreaching(limits: Limits, end: usize, t: Trailer) -> bool
    requires moderate { Moderate limits }
    requires sized { Sized limits t }
    ensures { result ≡ overreaching limits end t }
{
    let candidate_bytes = limits.candidate_bytes() * t.candidates.count;
    let score_bytes = 4 * ((t.nuclei.count + t.added_anchors.count) * t.scores.count);
    outside(end, t.mask.count, t.mask.back)
        | outside(end, 4 * t.nuclei.count, t.nuclei.back)
        | outside(end, 4 * t.boundaries.count, t.boundaries.back)
        | outside(end, 4 * t.added_anchors.count, t.added_anchors.back)
        | outside(end, 4 * t.added_boundaries.count, t.added_boundaries.back)
        | outside(end, score_bytes, t.scores.back)
        | outside(end, candidate_bytes, t.candidates.back)
        | outside(end, COSTS_BYTES, t.costs)
}
