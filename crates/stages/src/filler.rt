// The filler costs of a stage, from the counts before its boundaries, after `Filler::cost` of closed.rs.

ghost use Rattle.std.specs.Prelude.{◌≡◌, ◌≤◌};
ghost use Rattle.paths.specs.Anchors.{kept_in};
ghost use Rattle.limits.specs.Capacity.{most_anchors, most_boundaries};
ghost use Rattle.stages.specs.Parts.{Fit, FitList, Fills};
ghost use Rattle.stages.specs.Filler.{Rises, Counts, stretch, Priced};

use crate::anchors::place_anchors;
use crate::counts::count_speech;
use crate::stage_parts::StageParts;
use crate::stage_tables::{FillerCosts, NO_COSTS};
use crate::tables::write_each;
use limits::capacity::MOST_EDGES;
use phrase::costs::Costs;

// The cost of the stretch from edge `i` to edge `j`, of which `speech` and `nuclei` have the counts before each edge.
fn stretch_cost(speech: &[u32], nuclei: &[u32], i: usize, j: usize, costs: Costs) -> f64
    requires { Rises speech.now i j × Rises nuclei.now i j }
    ensures { result ≡ stretch costs speech.now nuclei.now i j }
{
    costs.cost(speech[j] - speech[i], nuclei[j] - nuclei[i])
}

// The costs at each of `n` boundaries, which the last edge follows. The two counts are two lists, since each is laid by a walk of its own and
// the nuclei's are the places among them.
fn lay_costs(speech: &[u32], nuclei: &[u32], n: usize, costs: Costs, filler: &mut FillerCosts)
    requires { Counts speech.now nuclei.now n × (n ≤ most_boundaries) }
    ensures { Priced costs speech.now nuclei.now n n filler.new }
{
    *filler = NO_COSTS;
    write_each(
        &mut filler.start[..n],
        |j| -costs.cost(speech[j], nuclei[j]),
    );
    write_each(
        &mut filler.gap[..n],
        |j| stretch_cost(speech, nuclei, j, j + 1, costs),
    );
    write_each(
        &mut filler.stop[..n],
        |j| stretch_cost(speech, nuclei, j, n, costs),
    );
}

// The filler costs of a stage with these boundaries. The nuclei are the record's, whatever the stage.
pub fn lay_filler(
    mask: &[u8],
    nuclei: &[u32],
    bounds: &[u32],
    costs: Costs,
    filler: &mut FillerCosts,
)
    requires { Fit mask.now bounds.now × FitList most_anchors nuclei.now }
    ensures { Fills costs mask.now (kept_in mask.now 0 nuclei.now) bounds.now filler.new }
{
    let placed = place_anchors(&StageParts {
        mask,
        anchors: nuclei,
        first_row: 0,
        bounds,
    });
    let mut speech = [0; MOST_EDGES];
    count_speech(mask, bounds, &mut speech);
    lay_costs(&speech, &placed.places, bounds.len(), costs, filler);
}
