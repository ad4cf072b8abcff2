// Decoding. After the result words come the lengths of the record, of the two work areas and of the output, and the record's pieces.

use crate::case::Case;
use crate::marks::{Cell, not_cleared, not_written};
use crate::pieces::lay;
use tikuwero::tikuwero_decode;

const WORK_CELLS: usize = 1088;

// A few cells more than the longest that is lent.
const MOST_WORK: usize = 1104;

const MOST_OUT: usize = 880;

// Decodes with buffers of the case's lengths, and compares what is returned and every cell.
pub(crate) fn decode(case: Case, record: &mut [u8]) -> bool {
    let mut arguments = case.arguments();
    let len = arguments.word() as usize;
    let best_len = (arguments.word() as usize).min(MOST_WORK);
    let back_len = (arguments.word() as usize).min(MOST_WORK);
    let out_len = (arguments.word() as usize).min(MOST_OUT);
    lay(arguments, record);
    let len = len.min(record.len());
    let mut best = [f64::MARK; MOST_WORK];
    let mut back = [u32::MARK; MOST_WORK];
    let mut out = [u32::MARK; MOST_OUT];
    let returned = tikuwero_decode(
        &record[..len],
        &mut best[..best_len],
        &mut back[..back_len],
        &mut out[..out_len],
    );
    let used = if case.answer.is_ok() { WORK_CELLS } else { 0 };
    case.returns(returned)
        && !not_cleared(&best, used)
        && !not_cleared(&back, used)
        && !not_written(&out, case.body, case.words)
}
