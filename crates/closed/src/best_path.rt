// The best path of one pass for one candidate, after `best_path` of closed.rs.

ghost use Rattle.std.specs.Prelude.{◌≡◌, length};
ghost use Rattle.closed.specs.Asked.{columns_of, RowsFilled, ReportsFor};
ghost use Rattle.closed.specs.Tasks.{asked_by, Searchable};

use crate::fill::fill_next;
use crate::path::{Path, finish};
use crate::task::StageTask;
use rows::inputs::RowInputs;
use rows::starts::fill_starts;

// The rows of no units and of every count up to the candidate's k, over the lent tables of a stage.
pub fn fill_rows(best: &mut [f64], back: &mut [u32], stage: &StageTask, k: usize)
    requires searchable { Searchable stage.now best.old back.old }
    requires k_value { k ≡ length (columns_of stage.now.task.accepted.bytes.now stage.now.task.candidate) }
    ensures { RowsFilled (asked_by stage.now) best.old back.old best.new back.new }
{
    let task = stage.task;
    fill_starts(best, back, &stage.tables.figures.filler, stage.n);
    for s in 0..k {
        let unit = task.accepted.column(task.candidate, s);
        let inputs = RowInputs {
            tables: stage.tables,
            n: stage.n,
            accepted: task.accepted,
            column: unit,
            costs: task.costs,
            strictness: stage.strictness,
        };
        fill_next(best, back, &inputs, s);
    }
}

// The path chosen, "the one that the cell rule below keeps" (document 01), or that there is none. Where the last row would reach no
// boundary nothing is searched. The work areas end as they came.
pub fn best_path(best: &mut [f64], back: &mut [u32], stage: &StageTask) -> Option<Path>
    requires { Searchable stage.now best.old back.old }
    ensures reports_for { ReportsFor (asked_by stage.now) result }
    ensures best_unchanged { (best.new ≡ best.old) × (back.new ≡ back.old) }
{
    let task = stage.task;
    let k = task.accepted.units(task.candidate);
    let since = stage.tables.words.since.at(stage.strictness, k);
    if since >= stage.n {
        return None;
    }
    fill_rows(best, back, stage, k);
    let stop = &stage.tables.figures.filler.stop;
    let path = finish(best, back, stop, stage.n, k, since);
    Some(path)
}
