// What the C interface answers: the entries under their C names, a refusal as minus its number. The crate tikuwero_c exports them.

#![tactic(auto)]

mod words;

ghost use Rattle.std.specs.Prelude.{◌≡◌, pos, neg_ℤ};
ghost use Rattle.limits.specs.Refusals.{number_of};
ghost use Rattle.evidence.specs.Joins.{joins_of};
ghost use Rattle.evidence.specs.CreakyTail.{creaky_tail_of};
ghost use Rattle.tikuwero.specs.Status.{status, flag, edge_flags, frame_of};
ghost use Rattle.tikuwero.specs.Calls.{DecodeCall, RateCall, SpansCall, MostUnitsCall};

use crate::words::{frame_of, stage_named, strictness_named};
use decode::decode::decode;
use evidence::evidence::creaky_tail;
use evidence::joins::joins;
use limits::refusal::Refusal;
use most_units::most::most_units;
use rate::duration::rate_s;
use spans::bounds::Bounds;
use spans::spans::tbu_spans;

// What "no path" is returned as, the highest `i32`; the header has it under this name.
const NO_BOUNDARY: i32 = 2147483647;

// A refusal is returned as minus its number.
fn refused(refusal: Refusal) -> i32
    ensures { result ≡ neg_ℤ (pos (number_of refusal)) }
{
    -(u32::from(refusal) as i32)
}

// The number of entries in `out`.
pub fn tikuwero_decode(record: &[u8], best: &mut [f64], back: &mut [u32], out: &mut [u32]) -> i32
    ensures { DecodeCall «record».now best.old back.old out.old result best.new back.new out.new }
{
    match decode(record, best, back, out) {
        Ok(count) => count as i32,
        Err(refusal) => refused(refusal),
    }
}

// 0, with the rate in `rate`.
pub fn tikuwero_rate_s(frames: &[u32], default_s: f64, rate: &mut f64) -> i32
    ensures { RateCall frames.now default_s rate.old result rate.new }
{
    match rate_s(frames, default_s) {
        Ok(seconds) => {
            *rate = seconds;
            0
        }
        Err(refusal) => refused(refusal),
    }
}

// The number of spans in `out`.
pub fn tikuwero_tbu_spans(
    nuclei: &[u32],
    bounds: &[u32],
    lo_edge: u32,
    hi_edge: u32,
    out: &mut [u32],
) -> i32
    ensures { SpansCall nuclei.now bounds.now lo_edge hi_edge out.old result out.new }
{
    let bounds = Bounds {
        boundaries: bounds,
        lo_edge,
        hi_edge,
    };
    match tbu_spans(nuclei, &bounds, out) {
        Ok(count) => count as i32,
        Err(refusal) => refused(refusal),
    }
}

// 1 where the start is joined and 2 where the end is, added.
pub fn tikuwero_joins(voice: &[u8], pitched: &[u8], start: u32, end: u32) -> i32
    ensures { result ≡ status edge_flags (joins_of voice.now pitched.now start end) }
{
    match joins(voice, pitched, start, end) {
        Ok(joined) => i32::from(joined.start) + 2 * i32::from(joined.end),
        Err(refusal) => refused(refusal),
    }
}

// 1 for yes, 0 for no; `next` is a frame, or the word for none.
pub fn tikuwero_creaky_tail(
    start: u32,
    end: u32,
    next: u32,
    pitched: &[u8],
    vowel_speech: &[u8],
) -> i32
    ensures { result ≡ status flag (creaky_tail_of start end (frame_of next) pitched.now vowel_speech.now) }
{
    match creaky_tail(start, end, frame_of(next), pitched, vowel_speech) {
        Ok(creaky) => i32::from(creaky),
        Err(refusal) => refused(refusal),
    }
}

// The most units of a path in a stage, or the number of "no path".
pub fn tikuwero_most_units(record: &[u8], stage: u32, strict: u32) -> i32
    ensures { MostUnitsCall «record».now stage strict result }
{
    match most_units(record, stage_named(stage), strictness_named(strict)) {
        Ok(None) => NO_BOUNDARY,
        Ok(Some(units)) => units as i32,
        Err(refusal) => refused(refusal),
    }
}
