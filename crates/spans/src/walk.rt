// The spans of all frames of a stage where its frames and its boundaries ascend: one walk over the two lists finds the edges by the
// boundaries, and one over the edges cuts those that overlap.

ghost use Rattle.std.specs.Prelude.{◌≡◌, ◌≤◌, max, length, slice_index, unwrap_or};
ghost use Rattle.frames.specs.Frames.{lowest_from};
ghost use Rattle.laws.specs.Inner.Tables.{written};
ghost use Rattle.spans.specs.Spans.{uncut_start, span_of};
ghost use Rattle.spans.specs.Inner.Walk.{Increasing, Walkable, Below, Splits, uncut_span, cut_span};

use crate::bounds::Bounds;
use crate::edges::cut;
use frames::span::Span;

// The first place from `from` on whose boundary is not below the frame. By `partition_point`, with no `from`, a decode of the maximal record
// takes up to 0.30 of the original's time, above its target of 0.29; so 0.27 at most.
fn below(boundaries: &[u32], from: usize, frame: u32) -> usize
    requires { Below boundaries.now frame from }
    ensures { Splits boundaries.now frame result }
{
    for at in from..boundaries.len() {
        if boundaries[at] >= frame {
            return at;
        }
    }
    boundaries.len()
}

impl Bounds<'_> {
    // A span's edges by the boundaries alone, of which the first `past` are below its frame, or, for the end, below the next one.
    fn start_by(&self, past: usize, frame: u32) -> u32
        requires { Increasing self.now.boundaries.now × Splits self.now.boundaries.now frame past }
        ensures { result ≡ uncut_start self.now.boundaries.now self.now.lo_edge frame }
    {
        match past.checked_sub(1) {
            Some(last) => self.boundaries[last],
            None => self.lo_edge.min(frame),
        }
    }

    fn end_by(&self, past: usize, next: u32) -> u32
        requires { Increasing self.now.boundaries.now × Splits self.now.boundaries.now next past }
        ensures { result ≡ unwrap_or (lowest_from next self.now.boundaries.now) (max self.now.hi_edge next) }
    {
        let beyond = self.hi_edge.max(next);
        self.boundaries.get(past).copied().unwrap_or(beyond)
    }
}

// The uncut span of every frame. No boundary is passed twice.
fn uncut(frames: &[u32], bounds: &Bounds, spans: &mut [Span])
    requires { Walkable frames.now bounds.now.boundaries.now spans.old }
    ensures { spans.new ≡ written (λ i. uncut_span bounds.now.boundaries.now bounds.now.lo_edge bounds.now.hi_edge (slice_index frames.now i)) (length frames.now) spans.old }
{
    let mut past = 0;
    for (i, &frame) in frames.iter().enumerate() {
        let lower = below(bounds.boundaries, past, frame);
        let next = frame + 1;
        past = below(bounds.boundaries, lower, next);
        spans[i] = Span {
            start: bounds.start_by(lower, frame),
            end: bounds.end_by(past, next),
        };
    }
}

// Cuts the edges of neighbours that overlap. Every edge is stored, cut or not, so that no turn branches.
fn cut_overlaps(frames: &[u32], spans: &mut [Span])
    requires { Increasing frames.now × (length frames.now ≤ length spans.old) }
    ensures { spans.new ≡ written (cut_span frames.now spans.old) (length frames.now) spans.old }
{
    if frames.is_empty() {
        return;
    }
    for i in 0..frames.len() - 1 {
        let start = spans[i + 1].start;
        let end = spans[i].end;
        let at = cut(frames[i], frames[i + 1]);
        spans[i + 1].start = if start < end { at } else { start };
        spans[i].end = if start < end { at } else { end };
    }
}

// The span of each frame.
pub fn spans_ascending(frames: &[u32], bounds: &Bounds, spans: &mut [Span])
    requires { Walkable frames.now bounds.now.boundaries.now spans.old }
    ensures { spans.new ≡ written (λ i. span_of frames.now bounds.now.boundaries.now bounds.now.lo_edge bounds.now.hi_edge (slice_index frames.now i)) (length frames.now) spans.old }
{
    uncut(frames, bounds, spans);
    cut_overlaps(frames, spans);
}
