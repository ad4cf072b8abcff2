// Refusals 8, 9 and 10, candidate by candidate, after `check_candidates`.

#![tactic(auto)]

ghost use Rattle.std.specs.Prelude.{false, ◌≡◌, ◌<◌};
ghost use Rattle.record.specs.Layout.{layout_of};
ghost use Rattle.record.specs.Conditions.{repeated, bad_units, bad_column};
ghost use Rattle.laws.specs.Rules.{first_of};
ghost use Rattle.record.specs.Refusals.{candidate_rules};
ghost use Rattle.record.specs.Inner.Checks.{answer};

use fields::CandidateList;
use limits::refusal::Refusal;

fn repeated(list: &CandidateList, i: usize) -> bool
    requires { i < list.now.at.candidates.count }
    ensures { result ≡ repeated list.now.limits list.now.bytes.now list.now.at i }
{
    let id = list.id(i);
    for j in 0..i {
        if list.id(j) == id {
            return true;
        }
    }
    false
}

fn bad_units(list: &CandidateList, i: usize) -> bool
    requires { i < list.now.at.candidates.count }
    ensures { result ≡ bad_units list.now.limits list.now.bytes.now list.now.at i }
{
    let units = list.units(i);
    (units == 0) | (units > list.limits.units)
}

fn bad_column(list: &CandidateList, i: usize) -> bool
    requires i_lt_count { i < list.now.at.candidates.count }
    requires i_value { bad_units list.now.limits list.now.bytes.now list.now.at i ≡ false }
    ensures { result ≡ bad_column list.now.limits list.now.bytes.now list.now.at i }
{
    let units = list.units(i);
    let columns = list.at.scores.count;
    for j in 0..units {
        if list.column(i, j) >= columns {
            return true;
        }
    }
    false
}

// The refusal of the first candidate that has one.
pub fn check_candidates(list: &CandidateList) -> Result<(), Refusal>
    requires { list.now.at ≡ layout_of list.now.bytes.now }
    ensures { result ≡ answer (first_of (candidate_rules list.now.limits list.now.bytes.now 0 list.now.at.candidates.count)) tt }
{
    for i in 0..list.at.candidates.count {
        if repeated(list, i) {
            return Err(Refusal::Twice);
        }
        if bad_units(list, i) {
            return Err(Refusal::Units);
        }
        if bad_column(list, i) {
            return Err(Refusal::Column);
        }
    }
    Ok(())
}
