// The tables of the added stage.

ghost use Rattle.record.specs.Meaning.{phrase_of};
ghost use Rattle.decode.specs.Plans.{AddedLaid};

use prepare::stage::lay_stage;
use reading::accepted::AcceptedRecord;
use record::read::{Edges, Which};
use stages::stage_tables::StageTables;

// "The added stage [..] exists exactly when A > 0"; else its tables stay as they came.
pub fn lay_added(accepted: &AcceptedRecord, edges: Edges, tables: &mut StageTables)
    ensures { AddedLaid (phrase_of accepted.now.bytes.now) edges.start edges.end tables.old tables.new }
{
    let at = accepted.at;
    if at.added_anchors.count != 0 {
        lay_stage(accepted, Which::Count, edges, tables);
    }
}
