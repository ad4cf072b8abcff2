// Checks of records around every limit. Standard input, u32 words, holds base records and then the cases; each case is a
// length, the place and length of its base, the lengths of two work areas and of an output, how many bytes to change, and
// for each its place, counted from the record's last byte, and its value. The record of a case is its base behind zeros,
// or the end of its base, so that the back pointers stay what they are. Printed for each case: the number by which the
// record is refused, 0 for none, without lent buffers and with them.
//
// make_cases.py makes the input, and the file stdout by an implementation of document 01's table of its own.

#![tactic(auto)]

ghost use Rattle.std.specs.Prelude.{◌≡◌, ◌≤◌, ◌-◌, length};

use checks::{check, check_areas};
use std::io;
use whole_input::read_full;
use whole_input::words::Words;

// More bytes than the input has.
const MOST_INPUT: usize = 65536;

// The longest record of a case.
const MOST: usize = 65540;

// What a case says before its changes.
#[derive(Clone, Copy)]
struct Case {
    long: u32,
    base: u32,
    base_long: u32,
    best: u32,
    back: u32,
    out: u32,
    changes: u32,
}

impl Case {
    fn read(words: &mut Words) -> Case
        ensures { length words.new.left.now ≡ length words.old.left.now - 28 }
    {
        Case {
            long: words.word(),
            base: words.word(),
            base_long: words.word(),
            best: words.word(),
            back: words.word(),
            out: words.word(),
            changes: words.word(),
        }
    }

    // The byte at a place counted from the last: of the base, or 0 before it.
    fn base_byte(&self, input: &[u8], place: usize) -> u8 {
        let base_long = self.base_long as usize;
        if place >= base_long {
            return 0;
        }
        let at = self.base as usize + (base_long - 1 - place);
        input.get(at).copied().unwrap_or(0)
    }

    fn lay(&self, input: &[u8], record: &mut [u8]) {
        for (place, byte) in record.iter_mut().rev().enumerate() {
            *byte = self.base_byte(input, place);
        }
    }

    // A place is counted from the last byte, and one before the record changes nothing.
    fn change(&self, words: &mut Words, record: &mut [u8])
        ensures { length words.new.left.now ≤ length words.old.left.now }
    {
        for _ in 0..self.changes {
            let place = words.word() as usize;
            let value = (words.word() % 256) as u8;
            if let Some(byte) = record.iter_mut().rev().nth(place) {
                *byte = value;
            }
        }
    }

    // An accepted record is printed as 0, which is no refusal's number: each line has two numbers.
    fn report(&self, rt: &impl Print, record: &[u8]) -> io::Result<()> {
        let lent = check_areas(
            record,
            self.best as usize,
            self.back as usize,
            self.out as usize,
        );
        let without = check(record).err().map_or(0, u32::from);
        let with = lent.err().map_or(0, u32::from);
        println!(rt; "{without} {with}")
    }
}

// The first word says where the cases start. An iterator of them would have to give up its words to each case for the changes, and
// need a law that it ends.
fn run_all(rt: &impl Print, input: &[u8], space: &mut [u8]) -> io::Result<()> {
    let start = Words { left: input }.word() as usize;
    let mut words = Words {
        left: input.get(start..).unwrap_or(&[]),
    };
    while !words.left.is_empty() {
        let case = Case::read(&mut words);
        let long = space.len().min(case.long as usize);
        let record = &mut space[..long];
        case.lay(input, record);
        case.change(&mut words, record);
        case.report(rt, record)?;
    }
    Ok(())
}

fn main(rt: HostRuntime) -> io::Result<()> {
    let mut input = [0u8; MOST_INPUT];
    let read = read_full(&mut rt.reader(), &mut input)?;
    let mut space = [0u8; MOST];
    run_all(&rt, &input[..read], &mut space)
}
