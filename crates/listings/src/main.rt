// Decodes several records. Standard input holds each behind its length, two bytes, the lower first; their listings are printed one
// after the other. The file stdout holds what the original prints for those that are accepted.

#![tactic(auto)]

use printing::print_listing;
use std::io;
use std::io::Write;
use whole_input::read_full;

// More bytes than the input has.
const MOST_INPUT: usize = 65536;

// A record that the input ends in is what is left of it. An iterator of records, by `from_fn` or a type of its own, would need a law that it
// ends; here what is left gets shorter.
fn print_all<W: Write>(out: &mut W, input: &[u8]) -> io::Result<()> {
    let mut left = input;
    while let Some((len, rest)) = left.split_first_chunk::<2>() {
        let len = usize::from(u16::from_le_bytes(*len));
        let (record, rest) = rest.split_at(rest.len().min(len));
        print_listing(out, record)?;
        left = rest;
    }
    Ok(())
}

fn main(rt: HostRuntime) -> io::Result<()> {
    let mut input = [0u8; MOST_INPUT];
    let read = read_full(&mut rt.reader(), &mut input)?;
    print_all(&mut rt.stdout(), &input[..read])
}
