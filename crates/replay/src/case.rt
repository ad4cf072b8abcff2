// A stored case: which entry it calls, what the call is to answer, and its arguments.

ghost use Rattle.std.specs.Prelude.{◌≤◌, length, IfOk, IfSome};

use std::io::Read;
use std::{fmt, io};
use whole_input::read_full;
use whole_input::words::Words;

// An entry of the C interface.
#[derive(Clone, Copy)]
pub(crate) enum Entry {
    Decode,
    RateS,
    TbuSpans,
    Joins,
    CreakyTail,
    MostUnits,
}

impl fmt::Display for Entry {
    fn fmt<W: fmt::Write>(&self, f: &mut fmt::Formatter<W>) -> fmt::Result {
        f.write_str(match self {
            Entry::Decode => "decode",
            Entry::RateS => "rate_s",
            Entry::TbuSpans => "tbu_spans",
            Entry::Joins => "joins",
            Entry::CreakyTail => "creaky_tail",
            Entry::MostUnits => "most_units",
        })
    }
}

// A number that names no entry.
#[derive(Clone, Copy)]
pub(crate) struct UnknownEntry;

impl TryFrom<u32> for Entry {
    type Error = UnknownEntry;

    fn try_from(number: u32) -> Result<Entry, UnknownEntry> {
        match number {
            1 => Ok(Entry::Decode),
            2 => Ok(Entry::RateS),
            3 => Ok(Entry::TbuSpans),
            4 => Ok(Entry::Joins),
            5 => Ok(Entry::CreakyTail),
            6 => Ok(Entry::MostUnits),
            _ => Err(UnknownEntry),
        }
    }
}

#[derive(Clone, Copy)]
pub(crate) struct Case<'a> {
    pub(crate) entry: Result<Entry, UnknownEntry>,
    // What is to be returned, or the number of the refusal, a number of the input: it is compared, and no refusal is told from another.
    pub(crate) answer: Result<u32, u32>,
    // How many words the call leaves in lent memory, which are the first of the body.
    pub(crate) words: u32,
    pub(crate) body: &'a [u8],
}

impl<'a> Case<'a> {
    // What stands behind those words: nothing where the body ends before.
    pub(crate) fn arguments(&self) -> Words<'a> {
        let at = self.body.len().min(4 * self.words as usize);
        Words {
            left: &self.body[at..],
        }
    }

    // Whether the C interface is to return this: a refusal as minus its number.
    pub(crate) fn returns(&self, status: i32) -> bool {
        let wanted = match self.answer {
            Ok(returned) => i64::from(returned),
            Err(refusal) => -i64::from(refusal),
        };
        i64::from(status) == wanted
    }
}

// Reads the next case. An input that ends within a case ends before it, and so does one with a case of entry 0.
pub(crate) fn next_case<'a, R: Read>(
    stored: &mut R,
    space: &'a mut [u8],
) -> io::Result<Option<Case<'a>>>
    ensures { IfOk result (λ found. IfSome found (λ case. length case.body.now ≤ length space.old)) }
{
    let mut head = [0u8; 20];
    if read_full(stored, &mut head)? < head.len() {
        return Ok(None);
    }
    let mut head = Words { left: &head };
    let entry = head.word();
    let len = head.word() as usize;
    let refusal = head.word();
    let returned = head.word();
    let words = head.word();
    let Some(body) = space.get_mut(..len) else {
        return Ok(None);
    };
    if read_full(stored, body)? < len || entry == 0 {
        return Ok(None);
    }
    Ok(Some(Case {
        entry: Entry::try_from(entry),
        answer: if refusal == 0 {
            Ok(returned)
        } else {
            Err(refusal)
        },
        words,
        body,
    }))
}
