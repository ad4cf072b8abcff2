// Decodes the record on standard input, and prints the listing that document 01 shows under "Sample phrase".

#![tactic(auto)]

use printing::print_listing;
use std::io;
use whole_input::read_full;

// A byte more than the longest record has: enough to refuse an input that is longer still, by 1, as all of it would be.
const MOST_BYTES: usize = 65537;

fn main(rt: HostRuntime) -> io::Result<()> {
    let mut record = [0u8; MOST_BYTES];
    let read = read_full(&mut rt.reader(), &mut record)?;
    print_listing(&mut rt.stdout(), &record[..read])
}
