// The span of one frame of a stage: its edges by the boundaries, cut where its neighbours overlap it.

ghost use Rattle.std.specs.Prelude.{◌≡◌, ◌+◌, ◌<◌, ◌≤◌, ◌^◌, max, unwrap_or};
ghost use Rattle.frames.specs.Frames.{highest_below, lowest_from};
ghost use Rattle.spans.specs.Spans.{uncut_start, cut, start_beside, end_beside, span_of};

use crate::bounds::Bounds;
use frames::list;
use frames::span::Span;

impl Bounds<'_> {
    // A span's edges by the boundaries alone. The two differ in where they look, in what they ask for there and in what stands in for it, so
    // that one function over all three would be longer.
    fn uncut_start(&self, frame: u32) -> u32
        ensures { result ≡ uncut_start self.now.boundaries.now self.now.lo_edge frame }
    {
        list::highest_below(self.boundaries, frame).unwrap_or(self.lo_edge.min(frame))
    }

    // The end goes by the frame after the span's own.
    fn uncut_end(&self, next: u32) -> u32
        ensures { result ≡ unwrap_or (lowest_from next self.now.boundaries.now) (max self.now.hi_edge next) }
    {
        list::lowest_from(self.boundaries, next).unwrap_or(self.hi_edge.max(next))
    }
}

// The frame midway between two neighbours, rounded up, so that each stays inside its own span.
pub(crate) fn cut(left: u32, right: u32) -> u32
    requires { left ≤ right }
    ensures { result ≡ cut left right }
{
    left + (right - left).div_ceil(2)
}

// A span's edges, cut where its neighbours overlap it.
fn span_start(frames: &[u32], bounds: &Bounds, frame: u32) -> u32
    ensures { result ≡ start_beside bounds.now.boundaries.now bounds.now.lo_edge bounds.now.hi_edge (highest_below frame frames.now) frame }
{
    let start = bounds.uncut_start(frame);
    match list::highest_below(frames, frame) {
        Some(left) if start < bounds.uncut_end(left + 1) => cut(left, frame),
        _ => start,
    }
}

fn span_end(frames: &[u32], bounds: &Bounds, frame: u32) -> u32
    requires { frame + 1 < 2 ^ 32 }
    ensures { result ≡ end_beside bounds.now.boundaries.now bounds.now.lo_edge bounds.now.hi_edge frame (lowest_from (frame + 1) frames.now) }
{
    let next = frame + 1;
    let end = bounds.uncut_end(next);
    match list::lowest_from(frames, next) {
        Some(right) if bounds.uncut_start(right) < end => cut(frame, right),
        _ => end,
    }
}

// The span of one frame of a stage, by the stage's frames and boundaries.
pub fn span_of(frames: &[u32], bounds: &Bounds, frame: u32) -> Span
    requires { frame + 1 < 2 ^ 32 }
    ensures { result ≡ span_of frames.now bounds.now.boundaries.now bounds.now.lo_edge bounds.now.hi_edge frame }
{
    Span {
        start: span_start(frames, bounds, frame),
        end: span_end(frames, bounds, frame),
    }
}
