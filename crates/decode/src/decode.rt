// The entry point: from a record and lent memory to result words.

ghost use Rattle.std.specs.Prelude.{length};
ghost use Rattle.decoding.specs.Contract.{Decodes};
ghost use Rattle.decode.specs.Calls.{Enough, Leaves};

use crate::decoder::Decoder;
use crate::lay::lay_added;
use crate::plan::plan_of;
use checks::check_areas;
use limits::edition::limits_of;
use limits::refusal::Refusal;
use prepare::stage::lay_stage;
use reading::accepted::AcceptedRecord;
use record::read::Which;
use rows::clear::clear;
use stages::stage_tables::NO_TABLES;

// Decodes an accepted record into buffers that are long enough.
fn decode_accepted(accepted: AcceptedRecord, best: &mut [f64], back: &mut [u32], out: &mut [u32])
    requires { Enough accepted.bytes.now (length best.old) (length back.old) (length out.old) }
    ensures { Leaves accepted.entry.bytes.now best.old back.old out.old best.new
        back.new out.new }
{
    // The tables stand first: behind the calls they are zeroed twice, which takes 4,600 instructions of 65,000 on a typical record.
    let mut nuclei = NO_TABLES;
    let mut laid = NO_TABLES;
    let at = accepted.at;
    let limits = limits_of(at.edition);
    clear(best, back, limits.work_cells());
    let plan = plan_of(&accepted);
    lay_stage(&accepted, Which::Nuclei, plan.edges, &mut nuclei);
    lay_added(&accepted, plan.edges, &mut laid);
    let added = (at.added_anchors.count != 0).then_some(&laid);
    let decoder = Decoder::new(accepted, plan, &nuclei, added);
    decoder.put_candidates(best, back, out);
}

// Decodes the record into `out`, one entry for each candidate, best first. Nothing is written before every check is passed.
pub fn decode(
    record: &[u8],
    best: &mut [f64],
    back: &mut [u32],
    out: &mut [u32],
) -> Result<u32, Refusal>
    ensures { Decodes «record».now best.old back.old out.old result best.new
        back.new out.new }
{
    let at = check_areas(record, best.len(), back.len(), out.len())?;
    decode_accepted(AcceptedRecord::new(record, at), best, back, out);
    Ok(at.candidates.count as u32)
}
