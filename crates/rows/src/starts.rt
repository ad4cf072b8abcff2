// The row of no units: a start at every boundary, and the gap from the one before.

ghost use Rattle.std.specs.Prelude.{◌≤◌, length};
ghost use Rattle.limits.specs.Capacity.{most_boundaries};
ghost use Rattle.rows.specs.Rows.{FirstRow};

use crate::way::Way;
use stages::stage_tables::FillerCosts;

// The boundary with none before it, to which no gap goes.
const FIRST: usize = 0;

// "A path starts at any boundary b"; "start comes first, [..] then the gap".
pub fn fill_starts(best: &mut [f64], back: &mut [u32], filler: &FillerCosts, n: usize)
    requires { (n ≤ length best.old) × (n ≤ length back.old) × (n ≤ most_boundaries) }
    ensures { FirstRow filler.now.start filler.now.gap best.old back.old best.new back.new n }
{
    for j in 0..n {
        let mut kept = Way::Start(filler.start[j]);
        if FIRST < j {
            kept = kept.or(Way::Gap(best[j - 1] - filler.gap[j - 1]));
        }
        best[j] = kept.value();
        back[j] = kept.mark();
    }
}
