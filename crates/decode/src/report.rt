// The units reported for a path, after `Decoder::score` of closed.rs.

ghost use Rattle.std.specs.Prelude.{◌≡◌, ◌<◌, length, map};
ghost use Rattle.limits.specs.Capacity.{most_boundaries};
ghost use Rattle.clip.specs.Inner.Units.{Clipped};
ghost use Rattle.decode.specs.Places.{place_of, Placeable};

use clip::clip::clip_unanchored;
use frames::span::Span;
use frames::unit::PlacedUnit;
use paths::passes::Strictness;
use rows::trace::Bounds;
use stages::stage_tables::StageWords;

// A unit of the stage that the words are of, by the boundaries where it begins and ends, before clipping. One from below the middle of the
// last boundary's origins holds the last anchor before it.
#[tactic(auto, unfolding(crate::specs::Places::place_of))]
fn place_unit(words: &StageWords, unit: Bounds) -> PlacedUnit
    requires { (unit.first < most_boundaries) × (unit.last < most_boundaries) }
    ensures { result ≡ place_of words.now unit }
{
    let i = unit.first as usize;
    let j = unit.last as usize;
    if i < words.origins.ends.at(Strictness::Strict, j) {
        PlacedUnit {
            span: words.spans[j],
            row: Some(words.rows[j]),
        }
    } else {
        PlacedUnit {
            span: Span {
                start: words.bounds[i],
                end: words.bounds[j],
            },
            row: None,
        }
    }
}

// The units of a path through the stage that the words are of.
fn place_units(path: &[Bounds], words: &StageWords, out: &mut [PlacedUnit])
    requires { Placeable path.now × (length path.now ≡ length out.old) }
    ensures { out.new ≡ map (place_of words.now) path.now }
{
    for (s, unit) in out.iter_mut().enumerate() {
        *unit = place_unit(words, path[s]);
    }
}

// The same units, as they are reported.
pub fn report_units(path: &[Bounds], words: &StageWords, out: &mut [PlacedUnit])
    requires { Placeable path.now × (length path.now ≡ length out.old) }
    ensures { Clipped (map (place_of words.now) path.now) out.new }
{
    place_units(path, words, out);
    clip_unanchored(out);
}
