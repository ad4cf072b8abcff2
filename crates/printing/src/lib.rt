// The listing of a record, as document 01 shows it under "Sample phrase".

#![tactic(auto)]

mod lines;
pub mod render;

ghost use Rattle.std.specs.Prelude.{OnOk};
ghost use Rattle.std.specs.Io.KnownBytes.{Appends};
ghost use Rattle.printing.specs.Listing.{listing_of};

use render::{LISTING_BYTES, render};
use std::io;
use std::io::Write;

// Writes a record's listing, whole, or fails. A writer whose contents are known holds it then behind what it had; of standard output no
// contract can speak.
pub fn print_listing<W: Write>(out: &mut W, record: &[u8]) -> io::Result<()>
    ensures { OnOk result (Appends (W.contents out.old) (W.contents out.new) (listing_of «record».now)) }
{
    let mut text = [0u8; LISTING_BYTES];
    let count = render(record, &mut text);
    out.write_all(&text[..count])
}
