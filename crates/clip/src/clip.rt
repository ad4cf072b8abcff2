// Units with an anchor keep their row's span; one without is clipped to what its neighbours leave. specs/Clip.antt is the rule.

ghost use Rattle.std.specs.Prelude.{◌≡◌, map};
ghost use Rattle.clip.specs.Clip.{next_start, report};
ghost use Rattle.clip.specs.Inner.Units.{placed, Clipped};

use frames::span::Span;
use frames::unit::PlacedUnit;

// Where the first anchored unit starts, or `otherwise`.
fn next_start(units: &[PlacedUnit], otherwise: u32) -> u32
    ensures { result ≡ next_start otherwise (map placed units.now) }
{
    units
        .iter()
        .find(|unit| unit.row.is_some())
        .map_or(otherwise, |unit| unit.span.start)
}

// The span reported for a unit before others, where the one before it ends at `low`.
#[tactic(auto, unfolding(crate::specs::Clip::report))]
fn report(low: u32, unit: PlacedUnit, later: &[PlacedUnit]) -> Span
    ensures { result ≡ report low (placed unit) (map placed later.now) }
{
    let path = unit.span;
    if unit.row.is_some() {
        return path;
    }
    let high = next_start(later, path.end).max(low);
    let start = path.start.clamp(low, high);
    Span {
        start,
        end: path.end.clamp(start, high),
    }
}

// Puts the reported spans in place of the given ones.
pub fn clip_unanchored(units: &mut [PlacedUnit])
    ensures { Clipped units.old units.new }
{
    let mut low = units.first().map_or(0, |unit| unit.span.start);
    for s in 0..units.len() {
        let span = report(low, units[s], &units[s + 1..]);
        units[s].span = span;
        low = span.end;
    }
}
