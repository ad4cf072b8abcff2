// The way back through the marks.

ghost use Rattle.std.specs.Prelude.{List, ◌+◌, ◌*◌, ◌≤◌, ◌<◌, ◌^◌, suc, length};
ghost use Rattle.limits.specs.Capacity.{most_units};
ghost use Rattle.paths.specs.Inner.Marks.{Traces};
ghost use Rattle.paths.specs.Path.{Bounds as PathBounds};
ghost use Rattle.rows.specs.Traced.{mark_in, Traceable, UnitsAre};

use crate::way::Step;
use limits::capacity::MOST_UNITS;

// The boundaries where a unit begins and ends.
#[derive(Clone, Copy, Debug, PartialEq, Eq)]
pub struct Bounds {
    pub first: u32,
    pub last: u32,
}

// The units of a path in path order, from the cell of k units and a boundary back to the start; entries from the unit count on are 0.
// `back` has a row of n marks for each count. A loop and no iterator, since two of the three steps change what the next turn reads; an array
// for the most units, since there is no heap.
pub fn trace(back: &[u32], n: usize, k: usize, boundary: usize) -> [Bounds; MOST_UNITS]
    requires k_le_most_units { (k ≤ most_units) × (n ≤ 2 ^ 32) × (suc k * n ≤ length back.now) × (boundary < n) }
    requires traceable { Traceable back.now n k boundary }
    ensures { (units : List PathBounds) → Traces (mark_in back.now n) k boundary units → UnitsAre result units }
{
    let mut units = [Bounds { first: 0, last: 0 }; MOST_UNITS];
    let mut s = k;
    let mut j = boundary;
    loop {
        match Step::of(back[s * n + j]) {
            Step::Start => return units,
            Step::Gap => j -= 1,
            Step::Unit(first) => {
                s -= 1;
                units[s] = Bounds {
                    first,
                    last: j as u32,
                };
                j = first as usize;
            }
        }
    }
}
