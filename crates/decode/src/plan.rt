// What is looked up once for an accepted record, for every candidate.

ghost use Rattle.std.specs.Prelude.{◌≡◌};
ghost use Rattle.closed.specs.Answered.{RunsOf};
ghost use Rattle.record.specs.Meaning.{phrase_of};
ghost use Rattle.record.specs.Inner.Reading.{edges_of};
ghost use Rattle.decode.specs.Plans.{PlanOf};

use closed::search::Runs;
use limits::capacity::MOST_ANCHORS;
use phrase::costs::Costs;
use reading::accepted::AcceptedRecord;
use record::read::{Edges, Which};
use stages::anchors::has_nucleus;

// The cost figures, whether there are passes, and the speech edges, which are 0 where there is no speech.
#[derive(Clone, Copy)]
pub struct Plan {
    pub costs: Costs,
    pub runs: Runs,
    pub edges: Edges,
}

fn runs_of(accepted: &AcceptedRecord, edges: Option<Edges>) -> Runs
    requires { edges_of edges ≡ (phrase_of accepted.now.bytes.now).speech }
    ensures { RunsOf (phrase_of accepted.now.bytes.now) result }
{
    let mut nuclei = [0u32; MOST_ANCHORS];
    let count = accepted.anchors(Which::Nuclei, &mut nuclei);
    let voiced = has_nucleus(accepted.mask(), &nuclei[..count]);
    Runs {
        spoken: edges.is_some(),
        voiced,
    }
}

pub fn plan_of(accepted: &AcceptedRecord) -> Plan
    ensures { PlanOf (phrase_of accepted.now.bytes.now) result }
{
    let speech = accepted.speech();
    Plan {
        costs: accepted.costs(),
        runs: runs_of(accepted, speech),
        edges: speech.unwrap_or(Edges { start: 0, end: 0 }),
    }
}
