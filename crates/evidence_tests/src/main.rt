// Runs the entries `rate_s`, `tbu_spans`, `joins` and `creaky_tail` on the cases of standard input and prints every answer, with the
// whole lent output of `tbu_spans`. A case is a line of numbers; all other text is skipped.
//
// `stdout` was not written by this program. Its values come from the original functions of duration.rs and evidence.rs,
// compiled and run on the same cases, and its refusals, which the original has none of, from document 01's conditions.

#![tactic(auto)]

mod cases;
mod input;
mod print;

use std::io;
use whole_input::read_full;

// More bytes than the cases have.
const MOST_BYTES: usize = 65536;

fn main(rt: HostRuntime) -> io::Result<()> {
    let mut buffer = [0u8; MOST_BYTES];
    let n = read_full(&mut rt.reader(), &mut buffer)?;
    cases::run_all(&rt, &buffer[..n])
}
