// What a row of the search is filled from.

ghost use Rattle.std.specs.Prelude.{◌≤◌};
ghost use Rattle.limits.specs.Capacity.{most_boundaries};
ghost use Rattle.rows.specs.Reads.{Scorable, score_read};
ghost use Rattle.rows.specs.Units.{Ordered, row_tables};

use paths::passes::Strictness;
use phrase::costs::Costs;
use reading::accepted::AcceptedRecord;
use reading::read::score;
use stages::stage_tables::StageTables;

// The tables of a stage with n boundaries, the column of the record's scores that the row's unit takes, the cost figures, and what the
// pass asks. The record counts the boundaries; in the tables their number would stand a second time.
#[derive(Clone, Copy)]
pub struct RowInputs<'a> {
    pub tables: &'a StageTables,
    pub n: usize,
    pub accepted: AcceptedRecord<'a>,
    pub column: usize,
    pub costs: Costs,
    pub strictness: Strictness,
    pub ghost few: { n ≤ most_boundaries },
    pub ghost scorable: { Scorable accepted.bytes.now accepted.at tables.now.words column n },
    pub ghost ordered: { Ordered (row_tables n tables.now (score_read accepted.bytes.now tables.now.words column) costs strictness) n },
}

impl RowInputs<'_> {
    ghost use Rattle.std.specs.Prelude.{◌≡◌, ◌<◌};
    ghost use Rattle.rows.specs.Reads.{score_read};

    // "The table at the anchor's row and the unit's column" (document 01). The anchor is the last kept one before boundary j.
    pub(crate) fn score_at(&self, j: usize) -> f64
        requires { j < self.now.n }
        ensures { result ≡ score_read self.now.accepted.bytes.now self.now.tables.now.words self.now.column j }
    {
        let row = self.tables.words.rows[j] as usize;
        let part = self.accepted.score_row(row);
        score(part, self.column) as f64
    }
}
