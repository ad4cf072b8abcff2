// The origins of the units that end at each boundary, which are a range: origin by origin, over the boundaries ahead.

ghost use Rattle.std.specs.Prelude.{ℕ, ◌≡◌, ◌<◌, length};
ghost use Rattle.limits.specs.Capacity.{most_boundaries};
ghost use Rattle.stages.specs.Parts.{FitList};
ghost use Rattle.stages.specs.Ranges.{Ranged, with_origin, no_origins};

use crate::stage_tables::Origins;
use limits::common::{LONGEST_UNIT, SHORTEST_UNIT};

// the most and the fewest frames of a unit, as frames are counted
const LONGEST: u32 = LONGEST_UNIT as u32;

const SHORTEST: u32 = SHORTEST_UNIT as u32;

// Takes in an origin `i` of boundary `j` that is above those before it. 0 for the end stands for no origin yet, so that the search walks over
// an empty range and tests nothing.
fn add_origin(origins: &mut Origins, i: usize, j: usize, anchored: bool)
    requires { (i < most_boundaries) × (j < most_boundaries) }
    ensures { origins.new ≡ with_origin origins.old i j anchored }
{
    let past = (i + 1) as u32;
    if origins.ends.relaxed[j] == 0 {
        origins.low[j] = i as u32;
    }
    if anchored {
        origins.ends.strict[j] = past;
    }
    origins.ends.relaxed[j] = past;
}

// The origins of the units of a stage, into tables that are 0; `ahead` gives the frames of the first and the second kept anchor at or after
// a boundary.
pub fn lay_ranges<F: Fn(usize) -> (u32, u32)>(ahead: F, bounds: &[u32], origins: &mut Origins)
    requires fresh { FitList most_boundaries bounds.now × (origins.old ≡ no_origins) }
    requires callable { (i : ℕ) → i < length bounds.now → F.pre ahead i }
    ensures { (first second : ℕ → ℕ)
        → ((i : ℕ) (frames : ℕ × ℕ) → i < length bounds.now → F.post ahead i frames → (frames.0 ≡ first i) × (frames.1 ≡ second i))
        → Ranged bounds.now first second origins.new }
{
    let n = bounds.len();
    for i in 0..n {
        let from = bounds[i];
        let (anchor, another) = ahead(i);
        'targets: for j in i + 1..n {
            let to = bounds[j];
            let frames = to - from;
            // "stops for good at the first that is over 80 frames away or takes in a second anchor"
            if (frames > LONGEST) | (to > another) {
                break 'targets;
            }
            if frames >= SHORTEST {
                add_origin(origins, i, j, to > anchor);
            }
        }
    }
}
