// Refusal 6: every float finite and within its range. The tests are on bits, since a NaN's bits are no float that may be read. A table
// is walked to its end, whatever is found on the way, so that the walk compiles to vector code.

#![tactic(auto)]

ghost use Rattle.std.specs.Prelude.{◌≡◌, ◌+◌, ◌≤◌, Bool, not, length, from_bits};
ghost use Rattle.std.specs.List.{list_any};
ghost use Rattle.std.specs.Int.{w32, w64, from_le_bytes};
ghost use Rattle.std.specs.Float.{binary32, binary64};
ghost use Rattle.ieee.specs.Range.{within};
ghost use Rattle.limits.specs.Common.{million};
ghost use Rattle.record.specs.Inner.Bounds.{Within};
ghost use Rattle.record.specs.Format.{costs_bytes, table_bytes};
ghost use Rattle.record.specs.Conditions.{bad_figures, is_duration, bad_cost};

use ieee::range::{nonpositive64, within};
use limits::common::DURATIONS;
use record::bytes::{numbers_at, u32_at, u64_at};
use record::format::{FIRST_TABLE_AT, INSERTION_AT, SECOND_TABLE_AT, UNVOICED_AT};
use record::layout::Layout;

// the bits of 1,000,000 and of 1,000
const MILLION_32: u64 = 0x4974_2400;

const MILLION_64: u64 = 0x412e_8480_0000_0000;

const THOUSAND_64: u64 = 0x408f_4000_0000_0000;

// Whether a number of a table is bad, by any test that the closure's results are those of.
fn any_bad<T: Copy, F: Fn(T) -> bool>(numbers: &[T], bad: F) -> bool
    requires { F.IsAlwaysCallable bad }
    ensures { (test : T → Bool)
        → ((number : T) (r : Bool) → F.post bad number r → r ≡ test number)
        → result ≡ list_any test numbers.now }
{
    numbers
        .iter()
        .fold(false, |found, number| found | bad(*number))
}

fn bad_figures(bytes: &[u8], costs: usize) -> bool
    requires { costs + costs_bytes ≤ length bytes.now }
    ensures { result ≡ bad_figures bytes.now costs }
{
    !within(u64_at(bytes, costs), THOUSAND_64)
        | !within(u64_at(bytes, costs + INSERTION_AT), THOUSAND_64)
        | !within(u32_at(bytes, costs + UNVOICED_AT), MILLION_32)
}

// The second table is not read where there are no anchors.
pub fn bad_cost(bytes: &[u8], at: Layout) -> bool
    requires { Within (length bytes.now) at }
    ensures { result ≡ bad_cost bytes.now at }
{
    let costs = at.costs;
    let entries = (at.nuclei.count + at.added_anchors.count) * at.scores.count;
    let bad_score = |bytes: [u8; 4]| -> bool
        ensures { result ≡ not (within million (from_bits binary32 (from_le_bytes w32 bytes))) }
    { !within(u32::from_le_bytes(bytes), MILLION_32) };
    let not_duration = |bytes: [u8; 8]| -> bool
        ensures { result ≡ not (is_duration (from_bits binary64 (from_le_bytes w64 bytes))) }
    { !nonpositive64(u64::from_le_bytes(bytes), MILLION_64) };
    let scores = numbers_at(bytes, at.scores.start, entries);
    let first = numbers_at(bytes, costs + FIRST_TABLE_AT, DURATIONS);
    if any_bad(scores, bad_score) | bad_figures(bytes, costs) | any_bad(first, not_duration) {
        return true;
    }
    if at.added_anchors.count == 0 {
        return false;
    }
    let second = numbers_at(bytes, costs + SECOND_TABLE_AT, DURATIONS);
    any_bad(second, not_duration)
}
