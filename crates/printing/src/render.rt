// From a record to its listing.

ghost use Rattle.std.specs.Prelude.{◌≡◌, ◌+◌, ◌*◌, ◌≤◌, length};
ghost use Rattle.text.specs.Inner.Puts.{Prints};
ghost use Rattle.limits.specs.Sizes.{entry_words};
ghost use Rattle.limits.specs.Capacity.{most_units};
ghost use Rattle.printing.specs.Listing.{refused_text, listing_of};
ghost use Rattle.printing.specs.Inner.InWords.{decoded_in, AllWhole};
ghost use Rattle.printing.specs.Rendered.{first_line_bytes, entry_bytes, listing_bytes, Rendered};

use crate::lines::put_entries;
use decode::decode::decode;
use limits::capacity::{MOST_CANDIDATES, MOST_CELLS, MOST_UNITS};
use limits::edition::{HEAD_WORDS, UNIT_WORDS, limits_of};
use sections::trailer::trailer_of;
use text::Page;

// Room for the entries of every record.
const MOST_WORDS: usize = MOST_CANDIDATES * (HEAD_WORDS + UNIT_WORDS * MOST_UNITS);

// The longest first line, line of a candidate and line of a unit.
const FIRST_LINE_BYTES: usize = 19;

const HEAD_LINE_BYTES: usize = 56;

const UNIT_LINE_BYTES: usize = 33;

const ENTRY_BYTES: usize = HEAD_LINE_BYTES + UNIT_LINE_BYTES * MOST_UNITS;

// Room for the listing of every record.
pub const LISTING_BYTES: usize = FIRST_LINE_BYTES + ENTRY_BYTES * MOST_CANDIDATES;

fn put_decoded(page: &mut Page, words: &[u32], most: usize, count: u32)
    requires most_le_most_units { (most ≤ most_units) × (page.old.len + (first_line_bytes + entry_bytes most_units * count) ≤ length page.old.bytes.now) }
    requires all_whole { AllWhole most count words.now }
    ensures { Prints (first_line_bytes + entry_bytes most_units * count) page.old (decoded_in (entry_words most) count words.now) page.new }
{
    page.put(b"decoded ");
    page.put_decimal(count);
    page.put(b"\n");
    put_entries(page, words, most, count as usize);
}

fn put_refused(page: &mut Page, number: u32)
    requires { page.old.len + first_line_bytes ≤ length page.old.bytes.now }
    ensures { Prints first_line_bytes page.old (refused_text number) page.new }
{
    page.put(b"refused ");
    page.put_decimal(number);
    page.put(b"\n");
}

// Decodes the record, and writes its listing on the page.
fn put_listing(page: &mut Page, record: &[u8])
    requires { page.old.len + listing_bytes ≤ length page.old.bytes.now }
    ensures { Prints listing_bytes page.old (listing_of «record».now) page.new }
{
    let mut best = [0.0f64; MOST_CELLS];
    let mut back = [0u32; MOST_CELLS];
    let mut words = [0u32; MOST_WORDS];
    match decode(record, &mut best, &mut back, &mut words) {
        Ok(count) => {
            let limits = limits_of(trailer_of(record).edition);
            put_decoded(page, &words, limits.units, count);
        }
        Err(refusal) => put_refused(page, u32::from(refusal)),
    }
}

// Writes the record's listing at the front of `out`, and answers how many bytes it has.
pub fn render(record: &[u8], out: &mut [u8]) -> usize
    requires { listing_bytes ≤ length out.old }
    ensures { Rendered «record».now out.old result out.new }
{
    let mut page = Page { bytes: out, len: 0 };
    put_listing(&mut page, record);
    page.len
}
