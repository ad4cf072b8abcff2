// The most units. A case has the length of the record, the stage word and the strictness word, and the record's pieces.

use crate::case::Case;
use crate::pieces::lay;
use tikuwero::tikuwero_most_units;

pub(crate) fn most_units(case: Case, record: &mut [u8]) -> bool {
    let mut arguments = case.arguments();
    let len = arguments.word() as usize;
    let stage = arguments.word();
    let strict = arguments.word();
    lay(arguments, record);
    let len = len.min(record.len());
    case.returns(tikuwero_most_units(&record[..len], stage, strict))
}
