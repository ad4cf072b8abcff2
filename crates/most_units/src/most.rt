// The most units of a path, from what each count of units reaches.

ghost use Rattle.std.specs.Prelude.{◌≡◌, ◌<◌, length, Ok};
ghost use Rattle.limits.specs.Capacity.{unit_counts};
ghost use Rattle.stages.specs.Tables.{entry_by};
ghost use Rattle.most_units.specs.Answers.{Answers};
ghost use Rattle.most_units.specs.Inner.Last.{LastReached};

use crate::reach::lay_reach;
use checks::check;
use limits::capacity::{MOST_BOUNDARIES, UNIT_COUNTS};
use limits::edition::limits_of;
use limits::refusal::Refusal;
use paths::passes::Strictness;
use prepare::stage_read::StageRead;
use reading::accepted::AcceptedRecord;
use record::read::Which;
use stages::by_strictness::ByStrictness;
use stages::stage_tables::NO_WORDS;

// The last count of units, up to the cap, that reaches one of `n` boundaries; there is at least one.
fn last_reached(
    since: &ByStrictness<UNIT_COUNTS>,
    strictness: Strictness,
    n: usize,
    cap: usize,
) -> usize
    requires { (cap < unit_counts) × (entry_by since.now strictness 0 < n) }
    ensures { LastReached (entry_by since.now strictness) n cap result }
{
    for units in 0..cap {
        if since.at(strictness, units + 1) >= n {
            return units;
        }
    }
    cap
}

// The most units in a stage of an accepted record; none where there is no path.
fn most_of(accepted: &AcceptedRecord, which: Which, strictness: Strictness) -> Option<u32>
    ensures { Answers accepted.now.bytes.now which strictness (Ok result) }
{
    let mut bounds = [0u32; MOST_BOUNDARIES];
    let stage = StageRead::new(accepted, which, &mut bounds);
    let n = stage.bounds.len();
    if n == 0 {
        return None;
    }
    let mut words = NO_WORDS;
    lay_reach(&stage, &mut words);
    let cap = limits_of(stage.accepted.at.edition).units;
    Some(last_reached(&words.since, strictness, n, cap) as u32)
}

// The most units of a path in a stage of the record, strict or relaxed, whether or not decoding would run that pass; none where
// there is no path. `number_for` of specs/Answers.antt gives each answer its number.
pub fn most_units(
    record: &[u8],
    which: Which,
    strictness: Strictness,
) -> Result<Option<u32>, Refusal>
    ensures { Answers «record».now which strictness result }
{
    let at = check(record)?;
    let accepted = AcceptedRecord::new(record, at);
    Ok(most_of(&accepted, which, strictness))
}
