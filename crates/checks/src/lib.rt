// The check of a record: refused by the first rule whose condition holds, or accepted with its layout.

#![tactic(auto)]

ghost use Rattle.std.specs.Prelude.{◌≡◌, ◌++◌, ◌≤◌, length};
ghost use Rattle.laws.specs.Rules.{first_of};
ghost use Rattle.limits.specs.Inner.Moderate.{Moderate};
ghost use Rattle.record.specs.Inner.Bounds.{Within, CandidatesRead};
ghost use Rattle.record.specs.Layout.{layout_of, limits_of, limits_at};
ghost use Rattle.record.specs.Conditions.{short_desk};
ghost use Rattle.record.specs.Refusals.{trailer_rules, content_rules, candidate_rules};
ghost use Rattle.record.specs.Inner.Checks.{answer, checked_of, checked_with};

use candidates::check_candidates;
use fields::CandidateList;
use figures::bad_cost;
use limits::edition::{Limits, limits_of};
use limits::refusal::Refusal;
use record::format::TRAILER_BYTES;
use record::layout::Layout;
use sections::layout::laid_out;
use sections::size::{other_edition, overreaching, oversized, stub};
use sections::trailer::trailer_of;
use tracks::bad_track;

// Refusals 1 to 4, by the length and the trailer; accepted so far with the layout.
fn check_trailer(bytes: &[u8]) -> Result<Layout, Refusal>
    ensures { result ≡ answer (first_of (trailer_rules (limits_of bytes.now) bytes.now)) (layout_of bytes.now) }
{
    if stub(bytes) {
        return Err(Refusal::Stub);
    }
    let trailer = trailer_of(bytes);
    let limits = limits_of(trailer.edition);
    if other_edition(limits, trailer) {
        return Err(Refusal::Edition);
    }
    if oversized(limits, trailer) {
        return Err(Refusal::Size);
    }
    let end = bytes.len() - TRAILER_BYTES;
    if overreaching(limits, end, trailer) {
        return Err(Refusal::Reach);
    }
    Ok(laid_out(end, trailer))
}

// Refusals 5 to 10, by what the sections hold. What `within` asks is asked by `bad_track` and `bad_cost` only; a struct that knows it would be
// made here, for those two calls, and be longer than the clauses that it spares.
fn check_contents(bytes: &[u8], at: Layout) -> Result<(), Refusal>
    requires at_value { at ≡ layout_of bytes.now }
    requires within { Within (length bytes.now) at }
    requires candidates_read { CandidatesRead (limits_at at) (length bytes.now) at }
    ensures { result ≡ answer (first_of (content_rules bytes.now ++ candidate_rules (limits_at at) bytes.now 0 at.candidates.count)) tt }
{
    if bad_track(bytes, at) {
        return Err(Refusal::Track);
    }
    if bad_cost(bytes, at) {
        return Err(Refusal::Cost);
    }
    if at.candidates.count == 0 {
        return Err(Refusal::Bare);
    }
    let limits = limits_of(at.edition);
    check_candidates(&CandidateList { bytes, limits, at })
}

// Refusals 1 to 10, which are the record's own.
pub fn check(bytes: &[u8]) -> Result<Layout, Refusal>
    ensures { result ≡ checked_of bytes.now }
{
    let at = check_trailer(bytes)?;
    check_contents(bytes, at)?;
    Ok(at)
}

fn short_desk(limits: Limits, candidates: usize, best: usize, back: usize, out: usize) -> bool
    requires moderate { Moderate limits }
    requires candidates_le_candidates { candidates ≤ limits.candidates }
    ensures { result ≡ short_desk limits candidates best back out }
{
    let cells = limits.work_cells();
    let words = candidates * limits.entry_words();
    (best < cells) | (back < cells) | (out < words)
}

// Refusal 11 on top, for a call that lends work areas of `best` and `back` cells and an output of `out` words.
pub fn check_areas(bytes: &[u8], best: usize, back: usize, out: usize) -> Result<Layout, Refusal>
    ensures { result ≡ checked_with bytes.now best back out }
{
    let at = check(bytes)?;
    if short_desk(limits_of(at.edition), at.candidates.count, best, back, out) {
        return Err(Refusal::Desk);
    }
    Ok(at)
}
