// Unit spans, after `tbu_spans` of evidence.rs.

ghost use Rattle.std.specs.Prelude.{◌≡◌};
ghost use Rattle.spans.specs.Spans.{spans_of, words_of, overwritten, Answers};
ghost use Rattle.spans.specs.Inner.Room.{Writable};

use crate::bounds::Bounds;
use crate::edges::span_of;
use frames::list;
use frames::ordered::Ascending;
use frames::sizes::MOST_FRAMES;
use limits::common::LAST_FRAME;
use limits::refusal::Refusal;

// Writes the spans from the output's first cell on.
fn write_spans(nuclei: &[u32], bounds: &Bounds, out: &mut [u32])
    requires { Writable nuclei.now out.old }
    ensures { out.new ≡ overwritten (words_of (spans_of nuclei.now bounds.now.boundaries.now bounds.now.lo_edge bounds.now.hi_edge)) out.old }
{
    for (i, f) in Ascending::new(nuclei).enumerate() {
        let span = span_of(nuclei, bounds, f);
        out[2 * i] = span.start;
        out[2 * i + 1] = span.end;
    }
}

// The span of each distinct nucleus, ascending, as two words each; the answer is how many there are.
pub fn tbu_spans(nuclei: &[u32], bounds: &Bounds, out: &mut [u32]) -> Result<usize, Refusal>
    ensures { Answers nuclei.now bounds.now.boundaries.now bounds.now.lo_edge bounds.now.hi_edge out.old result out.new }
{
    if (nuclei.len() > MOST_FRAMES) | (bounds.boundaries.len() > MOST_FRAMES) {
        return Err(Refusal::Size);
    }
    if list::any_above(nuclei, LAST_FRAME)
        | list::any_above(bounds.boundaries, LAST_FRAME)
        | (bounds.lo_edge > LAST_FRAME)
        | (bounds.hi_edge > LAST_FRAME)
    {
        return Err(Refusal::Track);
    }
    let count = list::distinct(nuclei);
    if out.len() < 2 * count {
        return Err(Refusal::Desk);
    }
    write_spans(nuclei, bounds, out);
    Ok(count)
}
