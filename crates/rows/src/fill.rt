// A row of the search, boundary by boundary, as the cell rule is written.

ghost use Rattle.std.specs.Prelude.{◌≡◌, ℕ, ◌+◌, ◌≤◌, ◌<◌, length, get_or};
ghost use Rattle.rows.specs.Rows.{Row, next, unfilled};
ghost use Rattle.rows.specs.Units.{Begins, CellOf, RowFilled};
ghost use Rattle.rows.specs.Reads.{UnitRead, score_read, units_kept};
ghost use Rattle.rows.specs.Inputs.{tables_by};

use crate::inputs::RowInputs;
use crate::units::{unit_from, units_from};
use crate::way::Way;
use paths::passes::Strictness;

// "Units from the lowest origin up", of which there is one: what they bring to boundary j. Those from below the middle hold an anchor.
fn arrived(best: &[f64], inputs: &RowInputs, j: usize, low: usize, end: usize) -> Way
    requires in_bounds { (j < inputs.now.n) × (low < end) × (get_or inputs.now.tables.now.words.origins.ends.strict j 0 ≤ end) }
    requires by_index { (i : ℕ) → low ≤ i → i < end →
        UnitRead best.now inputs.now.tables.now (get_or inputs.now.tables.now.words.bounds j 0) i }
    ensures { result
        ≡ units_kept best.now inputs.now.tables.now
        (score_read inputs.now.accepted.bytes.now inputs.now.tables.now.words inputs.now.column j) inputs.now.costs j low end }
{
    let tables = inputs.tables;
    let to = tables.words.bounds[j];
    let middle = tables.words.origins.ends.at(Strictness::Strict, j);
    let bare = inputs.costs.unanchored();
    let voice = if low < middle {
        inputs.score_at(j)
    } else {
        bare
    };
    let first = unit_from(best, tables, to, voice, low);
    let next = low + 1;
    let anchored = units_from(best, tables, to, voice, next..middle, first);
    let rest = next.max(middle);
    units_from(best, tables, to, bare, rest..end, anchored)
}

// "Start comes first, then units [..], then the gap": what is kept in the cell of boundary j. `best` has the row before, whose first
// reached boundary is `before`; this row's is `since`, and `last` is the value of its cell before j.
fn cell(best: &[f64], inputs: &RowInputs, before: usize, since: usize, j: usize, last: f64) -> Way
    requires in_bounds { (inputs.now.n + inputs.now.n ≤ length best.now) × (since ≤ j) × (j < inputs.now.n) }
    requires begins { Begins (tables_by inputs.now) inputs.now.n before since }
    ensures { CellOf (tables_by inputs.now) best.now inputs.now.n before since j last result }
{
    let tables = inputs.tables;
    let origins = &tables.words.origins;
    let low = (origins.low[j] as usize).max(before);
    let end = origins.ends.at(inputs.strictness, j);
    if end <= low {
        return Way::Gap(last - tables.figures.filler.gap[j - 1]);
    }
    let kept = arrived(best, inputs, j, low, end);
    if since < j {
        kept.or(Way::Gap(last - tables.figures.filler.gap[j - 1]))
    } else {
        kept
    }
}

// The row after the first n cells of the lent parts, from the first boundary that it reaches on. Each cell is stored once.
pub fn fill_row(best: &mut [f64], back: &mut [u32], inputs: &RowInputs, before: usize, since: usize)
    requires n_in_bounds { (inputs.now.n + inputs.now.n ≤ length best.old) × (inputs.now.n + inputs.now.n ≤ length back.old)
        × Row best.old back.old (next inputs.now.n) inputs.now.n unfilled }
    requires begins { Begins (tables_by inputs.now) inputs.now.n before since }
    ensures { RowFilled (tables_by inputs.now) best.old back.old best.new back.new inputs.now.n before }
{
    let n = inputs.n;
    let mut last = 0.0;
    for j in since..n {
        let kept = cell(best, inputs, before, since, j, last);
        last = kept.value();
        best[n + j] = last;
        back[n + j] = kept.mark();
    }
}
