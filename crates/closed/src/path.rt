// The path that filled rows hold.

ghost use Rattle.std.specs.Prelude.{◌++◌, ◌≡◌, ◌+◌, ◌*◌, ◌≤◌, ◌<◌, ◌^◌, suc, length, drop, replicate};
ghost use Rattle.std.specs.Float.{binary64};
ghost use Rattle.std.specs.Float.Ieee.{of_bits};
ghost use Rattle.limits.specs.Capacity.{most_units};
ghost use Rattle.paths.specs.Problem.{Problem};
ghost use Rattle.closed.specs.Reported.{AllRows, LastReached, Reports, SomeRows};
ghost use Rattle.rows.specs.Ends.{StopsOf};

use limits::capacity::MOST_UNITS;
use rows::clear::clear;
use rows::end::best_end;
use rows::trace::{Bounds, trace};

// The path chosen: its sum, and the boundaries of its units in path order, with 0 from the unit count on.
#[derive(Clone, Copy)]
pub struct Path {
    pub sum: f64,
    pub units: [Bounds; MOST_UNITS],
}

// The path chosen, once the row of every count up to k is filled; the last reaches its boundaries from `since` on. Used cells end as zero
// bits.
pub fn finish(
    best: &mut [f64],
    back: &mut [u32],
    stop: &[f64],
    n: usize,
    k: usize,
    since: usize,
) -> Path
    requires k_le_most_units { (k ≤ most_units) × (n ≤ 2 ^ 32) × (suc k * n ≤ length best.old) × (suc k * n ≤ length back.old)
        × (n ≤ length stop.now) × (since < n) }
    requires some_rows { SomeRows stop.now best.old back.old n k since }
    ensures reports { (q : Problem) → StopsOf q stop.now n → AllRows q best.old back.old n k
        → LastReached q n k since → Reports q k (Some result) }
    ensures best_after { best.new ≡ replicate (suc k * n) (of_bits binary64 0) ++ drop (suc k * n) best.old }
    ensures back_after { back.new ≡ replicate (suc k * n) 0 ++ drop (suc k * n) back.old }
{
    let row = k * n;
    let end = best_end(&best[row..], stop, n, since);
    let boundary = end.boundary;
    let units = trace(back, n, k, boundary);
    clear(best, back, row + n);
    Path {
        sum: end.sum,
        units,
    }
}
