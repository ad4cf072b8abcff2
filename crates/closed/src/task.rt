// What a search is asked.

ghost use Rattle.closed.specs.Asked.{CandidateIn};

use paths::passes::Strictness;
use phrase::costs::Costs;
use reading::accepted::AcceptedRecord;
use stages::stage_tables::StageTables;

// A candidate of an accepted record, with the record's cost figures.
#[derive(Clone, Copy)]
pub struct Task<'a> {
    pub accepted: AcceptedRecord<'a>,
    pub costs: Costs,
    pub candidate: usize,
    pub ghost given: { CandidateIn accepted.bytes.now accepted.at costs candidate },
}

// That over the tables of a stage with n boundaries, each unit as a pass's strictness asks.
#[derive(Clone, Copy)]
pub struct StageTask<'a> {
    pub task: Task<'a>,
    pub tables: &'a StageTables,
    pub n: usize,
    pub strictness: Strictness,
}
