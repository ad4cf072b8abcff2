// From back pointers to where the sections stand.

ghost use Rattle.std.specs.Prelude.{◌≡◌, ◌≤◌};
ghost use Rattle.record.specs.Inner.Bounds.{Inside};
ghost use Rattle.record.specs.Layout.{placed, layout_from};

use record::layout::{Layout, Section};
use record::trailer::{Mark, Trailer};

fn placed(end: usize, m: Mark) -> Section
    requires { m.back ≤ end }
    ensures { result ≡ placed end m }
{
    Section {
        count: m.count,
        start: end - m.back,
    }
}

#[tactic(auto, unfolding(record::specs::Layout::layout_from))]
pub fn laid_out(end: usize, t: Trailer) -> Layout
    requires { Inside end t }
    ensures { result ≡ layout_from end t }
{
    Layout {
        edition: t.edition,
        mask: placed(end, t.mask),
        nuclei: placed(end, t.nuclei),
        boundaries: placed(end, t.boundaries),
        added_anchors: placed(end, t.added_anchors),
        added_boundaries: placed(end, t.added_boundaries),
        scores: placed(end, t.scores),
        candidates: placed(end, t.candidates),
        costs: end - t.costs,
    }
}
