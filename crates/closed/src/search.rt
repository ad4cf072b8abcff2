// The search through the passes, after `search` of closed.rs.

ghost use Rattle.std.specs.Prelude.{true, ◌≡◌};
ghost use Rattle.paths.specs.Passes.{pass_stage, has_nucleus};
ghost use Rattle.paths.specs.Search.{chosen};
ghost use Rattle.limits.specs.Sizes.{work_cells};
ghost use Rattle.record.specs.Layout.{limits_of};
ghost use Rattle.record.specs.Meaning.{phrase_of};
ghost use Rattle.closed.specs.Answered.{Says, missed_word, answer_in, pass_answer, added_answer, RunsOf, HoldsStage, HoldsAdded};
ghost use Rattle.closed.specs.Asked.{columns_of, Unused};

use crate::best_path::best_path;
use crate::path::Path;
use crate::task::{StageTask, Task};
use paths::passes::{Pass, Strictness};
use stages::stage_tables::StageTables;

// The pass that finds a path, and the path; its units' boundaries are those of the stage of that pass.
#[derive(Clone, Copy)]
pub struct Found {
    pub pass: Pass,
    pub path: Path,
}

// Why there is no path: no pass admits one, or no nucleus is in the mask.
#[derive(Clone, Copy, Debug, PartialEq, Eq)]
pub enum Missed {
    NoPath,
    Unvoiced,
}

// The number of a result entry's pass word where no pass has a path.
impl From<Missed> for u32 {
    ghost from_gives = { λ missed number. number ≡ missed_word missed };

    fn from(missed: Missed) -> u32 {
        match missed {
            Missed::NoPath => 4,
            Missed::Unvoiced => 5,
        }
    }
}

// What decides whether there are passes: speech by the edges, a nucleus in the mask.
#[derive(Clone, Copy)]
pub struct Runs {
    pub spoken: bool,
    pub voiced: bool,
}

// What a pass says of the path that it found, or did not find.
fn answer_in(pass: Pass, found: Option<Path>) -> Result<Found, Missed>
    ensures { result ≡ answer_in pass found }
{
    match found {
        Some(path) => Ok(Found { pass, path }),
        None => Err(Missed::NoPath),
    }
}

// One pass, over the tables of its stage. That the work areas are unused is asked here and by both searches below: a struct that knew it
// would hold two `&mut`, and be taken apart at every call, since the C interface lends the areas as two slices.
pub fn attempt(
    best: &mut [f64],
    back: &mut [u32],
    task: &Task,
    tables: &StageTables,
    pass: Pass,
) -> Result<Found, Missed>
    requires nucleus { has_nucleus (phrase_of task.now.accepted.bytes.now) ≡ true }
    requires stage_lists { HoldsStage (phrase_of task.now.accepted.bytes.now) (pass_stage (phrase_of task.now.accepted.bytes.now) pass) tables.now }
    requires unused { Unused best.old back.old (work_cells (limits_of task.now.accepted.bytes.now)) }
    ensures says { Says (pass_answer (phrase_of task.now.accepted.bytes.now) pass (columns_of task.now.accepted.bytes.now task.now.candidate)) result }
    ensures best_unchanged { (best.new ≡ best.old) × (back.new ≡ back.old) }
{
    let at = task.accepted.at;
    let stage = StageTask {
        task: *task,
        tables,
        n: pass.pick(at.boundaries.count, at.added_boundaries.count),
        strictness: Strictness::from(pass),
    };
    answer_in(pass, best_path(best, back, &stage))
}

// The two passes over the added stage.
fn search_added(
    best: &mut [f64],
    back: &mut [u32],
    task: &Task,
    tables: &StageTables,
) -> Result<Found, Missed>
    requires nucleus { has_nucleus (phrase_of task.now.accepted.bytes.now) ≡ true }
    requires stage_lists { HoldsStage (phrase_of task.now.accepted.bytes.now) (phrase_of task.now.accepted.bytes.now).added tables.now }
    requires unused { Unused best.old back.old (work_cells (limits_of task.now.accepted.bytes.now)) }
    ensures says { Says (added_answer (phrase_of task.now.accepted.bytes.now) (columns_of task.now.accepted.bytes.now task.now.candidate)) result }
    ensures best_unchanged { (best.new ≡ best.old) × (back.new ≡ back.old) }
{
    // Not `or_else`: where its closure is not called, nothing is known any more of `best` and `back`, which it borrows, and the proof that
    // they end as they came did not close.
    match attempt(best, back, task, tables, Pass::CountStrict) {
        Ok(found) => Ok(found),
        Err(_) => attempt(best, back, task, tables, Pass::CountRelaxed),
    }
}

// The first pass that admits a path, in document 01's order, with the path chosen there; or that there is none. The added stage's
// tables are there exactly where that stage is. The work areas end as they came.
pub fn search(
    best: &mut [f64],
    back: &mut [u32],
    task: &Task,
    nuclei: &StageTables,
    added: Option<&StageTables>,
    runs: Runs,
) -> Result<Found, Missed>
    requires runs_of { RunsOf (phrase_of task.now.accepted.bytes.now) runs }
    requires nuclei_lists { HoldsStage (phrase_of task.now.accepted.bytes.now) (phrase_of task.now.accepted.bytes.now).nuclei nuclei.now }
    requires added_lists { HoldsAdded (phrase_of task.now.accepted.bytes.now) added }
    requires unused { Unused best.old back.old (work_cells (limits_of task.now.accepted.bytes.now)) }
    ensures says { Says (chosen (phrase_of task.now.accepted.bytes.now) (columns_of task.now.accepted.bytes.now task.now.candidate)) result }
    ensures best_unchanged { (best.new ≡ best.old) × (back.new ≡ back.old) }
{
    if !runs.voiced {
        return Err(Missed::Unvoiced);
    }
    if !runs.spoken {
        return Err(Missed::NoPath);
    }
    // Not `or_else`, for the same reason.
    match attempt(best, back, task, nuclei, Pass::NucleiStrict) {
        Ok(first) => Ok(first),
        Err(_) => match added {
            Some(tables) => search_added(best, back, task, tables),
            None => attempt(best, back, task, nuclei, Pass::NucleiRelaxed),
        },
    }
}
