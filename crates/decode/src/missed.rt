// The unit reported where there is no path, after `Decoder::no_path` of closed.rs.

ghost use Rattle.std.specs.Prelude.{◌≡◌};
ghost use Rattle.decode.specs.Places.{missed_at};

use frames::span::Span;
use frames::unit::PlacedUnit;

// An empty span at a frame.
pub fn missed_unit(at: u32) -> PlacedUnit
    ensures { result ≡ missed_at at }
{
    PlacedUnit {
        span: Span { start: at, end: at },
        row: None,
    }
}
