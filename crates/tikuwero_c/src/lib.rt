// The C interface: the functions of tikuwero under the names that C links. A slice is a pointer and a length.
// include/tikuwero.h says what a C caller has to know.

#![tactic(auto)]

ghost use Rattle.std.specs.Prelude.{◌≡◌};
ghost use Rattle.evidence.specs.Joins.{joins_of};
ghost use Rattle.evidence.specs.CreakyTail.{creaky_tail_of};
ghost use Rattle.tikuwero.specs.Status.{status, flag, edge_flags, frame_of};
ghost use Rattle.tikuwero.specs.Calls.{DecodeCall, RateCall, SpansCall, MostUnitsCall};

// The number of entries in `out`.
#[unsafe(no_mangle)]
pub extern "C" fn tikuwero_decode(
    record: &[u8],
    best: &mut [f64],
    back: &mut [u32],
    out: &mut [u32],
) -> i32
    ensures { DecodeCall «record».now best.old back.old out.old result best.new back.new out.new }
{
    tikuwero::tikuwero_decode(record, best, back, out)
}

// 0, with the rate in `rate`.
#[unsafe(no_mangle)]
pub extern "C" fn tikuwero_rate_s(frames: &[u32], default_s: f64, rate: &mut f64) -> i32
    ensures { RateCall frames.now default_s rate.old result rate.new }
{
    tikuwero::tikuwero_rate_s(frames, default_s, rate)
}

// The number of spans in `out`.
#[unsafe(no_mangle)]
pub extern "C" fn tikuwero_tbu_spans(
    nuclei: &[u32],
    bounds: &[u32],
    lo_edge: u32,
    hi_edge: u32,
    out: &mut [u32],
) -> i32
    ensures { SpansCall nuclei.now bounds.now lo_edge hi_edge out.old result out.new }
{
    tikuwero::tikuwero_tbu_spans(nuclei, bounds, lo_edge, hi_edge, out)
}

// 1 where the start is joined and 2 where the end is, added.
#[unsafe(no_mangle)]
pub extern "C" fn tikuwero_joins(voice: &[u8], pitched: &[u8], start: u32, end: u32) -> i32
    ensures { result ≡ status edge_flags (joins_of voice.now pitched.now start end) }
{
    tikuwero::tikuwero_joins(voice, pitched, start, end)
}

// 1 for yes, 0 for no; `next` is a frame, or the word for none.
#[unsafe(no_mangle)]
pub extern "C" fn tikuwero_creaky_tail(
    start: u32,
    end: u32,
    next: u32,
    pitched: &[u8],
    vowel_speech: &[u8],
) -> i32
    ensures { result ≡ status flag (creaky_tail_of start end (frame_of next) pitched.now vowel_speech.now) }
{
    tikuwero::tikuwero_creaky_tail(start, end, next, pitched, vowel_speech)
}

// The most units of a path in a stage, or the number of "no path".
#[unsafe(no_mangle)]
pub extern "C" fn tikuwero_most_units(record: &[u8], stage: u32, strict: u32) -> i32
    ensures { MostUnitsCall «record».now stage strict result }
{
    tikuwero::tikuwero_most_units(record, stage, strict)
}
