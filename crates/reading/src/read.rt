// A score of a part of a record.

ghost use Rattle.std.specs.Prelude.{not, ◌+◌, ◌*◌, ◌≤◌, T, length};
ghost use Rattle.std.specs.Float.Ieee.{is_nan};
ghost use Rattle.record.specs.Conditions.{f32_at};
ghost use Rattle.record.specs.Inner.Reading.{IsFloat};

use record::bytes::u32_at;

// A score of the row that `part` starts with.
pub fn score(part: &[u8], column: usize) -> f32
    requires column_in_bounds { 4 * column + 4 ≤ length part.now }
    requires t { T (not (is_nan (f32_at part.now (4 * column)))) }
    ensures { IsFloat (f32_at part.now (4 * column)) result }
{
    f32::from_bits(u32_at(part, 4 * column))
}
