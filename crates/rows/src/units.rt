// The units into one boundary, from the row before.

ghost use Rattle.std.specs.Prelude.{◌≡◌, ℕ, ◌-◌, ◌≤◌, ◌<◌};
ghost use Rattle.rows.specs.Ways.{or_each};
ghost use Rattle.rows.specs.Reads.{unit_way, UnitRead};

use crate::way::Way;
use limits::common::SHORTEST_UNIT;
use stages::stage_tables::StageTables;
use std::ops::Range;

// "It adds score + duration, itself rounded once first."
pub(crate) fn unit_from(
    best: &[f64],
    tables: &StageTables,
    to: u32,
    score: f64,
    origin: usize,
) -> Way
    requires { UnitRead best.now tables.now to origin }
    ensures { result ≡ unit_way best.now tables.now to score origin }
{
    let frames = (to - tables.words.bounds[origin]) as usize;
    Way::Unit(
        best[origin] + (score + tables.figures.durations[frames - SHORTEST_UNIT]),
        origin,
    )
}

// "Units from the lowest origin up", after what is kept so far.
pub(crate) fn units_from(
    best: &[f64],
    tables: &StageTables,
    to: u32,
    score: f64,
    origins: Range<usize>,
    so_far: Way,
) -> Way
    requires { (i : ℕ) → origins.start ≤ i → i < origins.end → UnitRead best.now tables.now to i }
    ensures { result
        ≡ or_each (unit_way best.now tables.now to score) so_far origins.start (origins.end - origins.start) }
{
    let mut kept = so_far;
    for origin in origins {
        kept = kept.or(unit_from(best, tables, to, score, origin));
    }
    kept
}
