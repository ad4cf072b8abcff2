// The rows of every unit count, each a part of the work areas.

ghost use Rattle.std.specs.Prelude.{◌+◌, ◌*◌, ◌≤◌, ◌<◌, length};
ghost use Rattle.limits.specs.Capacity.{unit_counts};
ghost use Rattle.rows.specs.Reads.{reached_by};
ghost use Rattle.rows.specs.Units.{Begins};
ghost use Rattle.rows.specs.Inputs.{tables_by};
ghost use Rattle.closed.specs.Filled.{FilledNext, UnfilledAfter};

use rows::fill::fill_row;
use rows::inputs::RowInputs;

// The row after that of s units: "Each unit count has its own row, filled as a part of the work area" (document 01).
pub fn fill_next(best: &mut [f64], back: &mut [u32], inputs: &RowInputs, s: usize)
    requires n_in_bounds { (s * inputs.now.n + inputs.now.n + inputs.now.n ≤ length best.old)
        × (s * inputs.now.n + inputs.now.n + inputs.now.n ≤ length back.old) × (s + 1 < unit_counts)
        × UnfilledAfter best.old back.old inputs.now.n s }
    requires begins { Begins (tables_by inputs.now) inputs.now.n (reached_by inputs.now.tables.now.words inputs.now.strictness s)
        (reached_by inputs.now.tables.now.words inputs.now.strictness (s + 1)) }
    ensures { FilledNext (tables_by inputs.now) best.old back.old best.new back.new inputs.now.n s
        (reached_by inputs.now.tables.now.words inputs.now.strictness s) }
{
    let row = s * inputs.n;
    let reached = &inputs.tables.words.since;
    let before = reached.at(inputs.strictness, s);
    let since = reached.at(inputs.strictness, s + 1);
    fill_row(&mut best[row..], &mut back[row..], inputs, before, since);
}
