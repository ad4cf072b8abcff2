// The words of a stage that the search reads.

ghost use Rattle.std.specs.Prelude.{◌≡◌, ◌+◌, ◌<◌, ◌≤◌, length};
ghost use Rattle.limits.specs.Capacity.{most_boundaries};
ghost use Rattle.laws.specs.Inner.Tables.{written};
ghost use Rattle.stages.specs.Kept.{kept_of};
ghost use Rattle.stages.specs.Parts.{FitList, Searched};
ghost use Rattle.stages.specs.Places.{AnchorsPlaced};
ghost use Rattle.stages.specs.Ranges.{entry_of, Ranged, Ends};
ghost use Rattle.stages.specs.Search.{Within, Reaches, entry_before, reached_from, Lays, no_spans};

use crate::anchors::PlacedAnchors;
use crate::by_strictness::ByStrictness;
use crate::ranges::lay_ranges;
use crate::since::lay_since;
use crate::stage_parts::StageParts;
use crate::stage_tables::{NO_WORDS, Origins, StageWords};
use crate::tables::write_each;
use limits::capacity::UNIT_COUNTS;

// The entry of a list before a place; 0 before the first. So a boundary without an anchor before it has row 0: the row and the span of a
// boundary are read only where a unit holds an anchor, and an Option in each entry would be opened there again.
fn entry_before(list: &[u32], place: u32) -> u32
    requires { place ≤ length list.now }
    ensures { result ≡ entry_before list.now place }
{
    (place as usize).checked_sub(1).map_or(0, |at| list[at])
}

// What each count of units reaches, from the origins that are laid.
fn lay_counts(n: usize, origins: &Origins, since: &mut ByStrictness<UNIT_COUNTS>)
    requires { Ends origins.now.low origins.now.ends.strict n × Ends origins.now.low origins.now.ends.relaxed n }
    ensures { since.new ≡ reached_from origins.now n }
{
    lay_since(&origins.low, &origins.ends.strict, n, &mut since.strict);
    lay_since(&origins.low, &origins.ends.relaxed, n, &mut since.relaxed);
}

// The boundaries; the origins of the units that end at each; the row of the last kept anchor before it; and what each count of units
// reaches. From the place of each boundary among the kept anchors.
pub fn lay_search(
    frames: &[u32],
    rows: &[u32],
    places: &[u32],
    bounds: &[u32],
    words: &mut StageWords,
)
    requires { Within frames.now places.now (length bounds.now)
        × Reaches places.now (length bounds.now) (length rows.now + 1)
        × FitList most_boundaries bounds.now }
    ensures { Lays frames.now rows.now places.now bounds.now words.new }
{
    let n = bounds.len();
    *words = NO_WORDS;
    // Entry by entry: `copy_from_slice` becomes a call of memmove here, which the archive does not ask of its callers.
    write_each(&mut words.bounds[..n], |j| bounds[j]);
    lay_ranges(
        |j| {
            let place = places[j] as usize;
            (frames[place], frames[place + 1])
        },
        bounds,
        &mut words.origins,
    );
    write_each(&mut words.rows[..n], |j| entry_before(rows, places[j]));
    lay_counts(n, &words.origins, &mut words.since);
}

// The same by the parts of a stage: the words that its search reads, in which those of the spans are 0.
pub fn lay_parts(stage: &StageParts, placed: &PlacedAnchors, words: &mut StageWords)
    requires placed { AnchorsPlaced (kept_of stage.now) stage.now.bounds.now placed.now }
    ensures searched { Searched (kept_of stage.now) stage.now.bounds.now words.new }
    ensures spare { words.new.spans ≡ no_spans }
{
    lay_search(
        &placed.frames,
        &placed.rows,
        &placed.places,
        stage.bounds,
        words,
    );
}
