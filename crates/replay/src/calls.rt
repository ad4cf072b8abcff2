// The entries that take no record. After the words that the call leaves, a case has its figures, and its lists; a case of masks has no such
// words.

use crate::case::Case;
use crate::input::{float, list};
use crate::marks::{Cell, not_written};
use tikuwero::{tikuwero_creaky_tail, tikuwero_joins, tikuwero_rate_s, tikuwero_tbu_spans};
use whole_input::words::Words;

// More than the longest list, and more words than its spans have.
const MOST_FRAMES: usize = 80;

const MOST_OUT: usize = 140;

fn rate_or_mark(case: Case) -> f64 {
    match case.answer {
        Ok(_) => float(&mut Words { left: case.body }),
        Err(_) => f64::MARK,
    }
}

// How many frames, the default, the frames.
pub(crate) fn rate_s(case: Case) -> bool {
    let mut arguments = case.arguments();
    let count = arguments.word();
    let default_s = float(&mut arguments);
    let mut cells = [0u32; MOST_FRAMES];
    let frames = list(&mut arguments, count, &mut cells);
    let mut rate = f64::MARK;
    let returned = tikuwero_rate_s(frames, default_s, &mut rate);
    case.returns(returned) && rate.same(rate_or_mark(case))
}

// How many nuclei, how many boundaries, the words of the output, the edges, the nuclei, the boundaries.
pub(crate) fn tbu_spans(case: Case) -> bool {
    let mut arguments = case.arguments();
    let nucleus_count = arguments.word();
    let bound_count = arguments.word();
    let room = (arguments.word() as usize).min(MOST_OUT);
    let lo_edge = arguments.word();
    let hi_edge = arguments.word();
    let mut nucleus_cells = [0u32; MOST_FRAMES];
    let nuclei = list(&mut arguments, nucleus_count, &mut nucleus_cells);
    let mut bound_cells = [0u32; MOST_FRAMES];
    let bounds = list(&mut arguments, bound_count, &mut bound_cells);
    let mut out = [u32::MARK; MOST_OUT];
    let returned = tikuwero_tbu_spans(nuclei, bounds, lo_edge, hi_edge, &mut out[..room]);
    case.returns(returned) && !not_written(&out, case.body, case.words)
}

// How long the voice mask is, the edges; the voice mask, and up to the end the pitch mask.
pub(crate) fn joins(case: Case) -> bool {
    if case.body.len() < 12 {
        return false;
    }
    let mut body = Words { left: case.body };
    let len = body.word();
    let start = body.word();
    let end = body.word();
    let voice = body.bytes(len);
    case.returns(tikuwero_joins(voice, body.left, start, end))
}

// How long the pitch mask is, the edges, the next nucleus; the pitch mask, and up to the end that of vowel speech.
pub(crate) fn creaky_tail(case: Case) -> bool {
    if case.body.len() < 16 {
        return false;
    }
    let mut body = Words { left: case.body };
    let len = body.word();
    let start = body.word();
    let end = body.word();
    let next = body.word();
    let pitched = body.bytes(len);
    case.returns(tikuwero_creaky_tail(start, end, next, pitched, body.left))
}
