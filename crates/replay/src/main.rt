// Replays a stored sample through the C interface. Standard input holds the cases, with what the original answers for each or, for the
// most units, what longest paths over counts give; from `oracle/`, this made it:
//
//     cargo run --release --bin replay_sample -- 1000 20261116 > ../crates/replay/stdin
//
// Printed are the first cases that differ, if any, and for each entry how many calls were replayed, how many of them are refused by
// the sample, and how many agree: in what is returned, in every word that is written, and in every lent cell that is not.

#![tactic(auto)]

mod calls;
mod case;
mod counting;
mod decodings;
mod input;
mod marks;
mod pieces;

use crate::case::{Case, Entry, next_case};
use std::io;

// More bytes than any case of the sample has, and than any record.
const MOST_BODY: usize = 70000;

const MOST_RECORD: usize = 65540;

// More cases than the sample has.
const MOST_CASES: u32 = 100000;

// How many of the cases that differ are printed.
const MOST_PRINTED: u32 = 5;

// Of an entry's cases, how many there are, how many are refused, and how many agree.
#[derive(Clone, Copy)]
struct Tally {
    entry: Entry,
    replayed: u32,
    refused: u32,
    agree: u32,
}

impl Tally {
    fn of(entry: Entry) -> Tally {
        Tally {
            entry,
            replayed: 0,
            refused: 0,
            agree: 0,
        }
    }

    fn count(&mut self, refused: bool, agrees: bool) {
        self.replayed = self.replayed.saturating_add(1);
        self.refused = self.refused.saturating_add(u32::from(refused));
        self.agree = self.agree.saturating_add(u32::from(agrees));
    }
}

// What goes from case to case: the record that the pieces of each are laid over, and the tallies of the entries, in their order.
#[derive(Drop)]
struct Replay<'a> {
    record: &'a mut [u8],
    tallies: [Tally; 6],
}

impl<'a> Replay<'a> {
    fn over(record: &'a mut [u8]) -> Replay<'a> {
        let entries = [
            Entry::Decode,
            Entry::RateS,
            Entry::TbuSpans,
            Entry::Joins,
            Entry::CreakyTail,
            Entry::MostUnits,
        ];
        Replay {
            record,
            tallies: entries.map(Tally::of),
        }
    }

    // An entry's step as a closure beside its tally would be six types in one array, and so six boxes, or pointers that the gate refuses.
    fn agrees(&mut self, entry: Entry, case: Case) -> bool {
        match entry {
            Entry::Decode => decodings::decode(case, self.record),
            Entry::RateS => calls::rate_s(case),
            Entry::TbuSpans => calls::tbu_spans(case),
            Entry::Joins => calls::joins(case),
            Entry::CreakyTail => calls::creaky_tail(case),
            Entry::MostUnits => counting::most_units(case, self.record),
        }
    }

    // Whether the case agrees, counted for its entry. A case of no known entry agrees with nothing.
    fn replay(&mut self, case: Case) -> bool {
        let Ok(entry) = case.entry else {
            return false;
        };
        let agrees = self.agrees(entry, case);
        self.tallies[entry as usize].count(case.answer.is_err(), agrees);
        agrees
    }
}

// Replays case after case, up to the end of the input. No contract says that a reader ends, so `while let` would not be known to end:
// hence `MOST_CASES`.
fn replay_all(
    rt: &(impl Input + Print),
    body: &mut [u8],
    record: &mut [u8],
) -> io::Result<[Tally; 6]> {
    let mut replay = Replay::over(record);
    let mut stored = rt.reader();
    let mut printed = 0;
    for number in 1..=MOST_CASES {
        let Some(case) = next_case(&mut stored, body)? else {
            break;
        };
        if !replay.replay(case) && printed < MOST_PRINTED {
            println!(rt; "case {number} differs")?;
            printed += 1;
        }
    }
    Ok(replay.tallies)
}

fn main(rt: HostRuntime) -> io::Result<()> {
    let mut body = [0u8; MOST_BODY];
    let mut record = [0u8; MOST_RECORD];
    for tally in &replay_all(&rt, &mut body, &mut record)? {
        let Tally {
            entry,
            replayed,
            refused,
            agree,
        } = *tally;
        println!(rt; "{entry}: {replayed} replayed, {refused} of them refused, {agree} agree")?;
    }
    Ok(())
}
