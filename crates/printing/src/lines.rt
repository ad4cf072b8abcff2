// The lines of the listing (document 01, "Sample phrase"), from the words of entries, written on a page. Not by `write!`: std says what
// that wrote where it answers `Ok`, and not that it does so where there is room, so `render`, which cannot fail, could not be proved.

ghost use Rattle.std.specs.Prelude.{◌≡◌, ◌+◌, ◌*◌, ◌≤◌, length, map};
ghost use Rattle.text.specs.Inner.Puts.{Prints};
ghost use Rattle.limits.specs.Sizes.{entry_words};
ghost use Rattle.limits.specs.Capacity.{most_units};
ghost use Rattle.printing.specs.Listing.{row_text, unit_line, unit_lines, pass_word, head_line};
ghost use Rattle.printing.specs.Inner.InWords.{name_text, unit_in, units_of, lines_in, all_lines_in, AllWhole};
ghost use Rattle.printing.specs.Rendered.{head_line_bytes, unit_line_bytes, entry_bytes};

use limits::common::ABSENT;
use limits::edition::{HEAD_WORDS, UNIT_WORDS};
use text::Page;

// The row is a word of the result, as the pass is below, and `ABSENT` is the C interface's number for none.
fn put_row(page: &mut Page, row: u32)
    requires { page.old.len + 10 ≤ length page.old.bytes.now }
    ensures { Prints 10 page.old (row_text row) page.new }
{
    if row == ABSENT {
        page.put(b"-");
    } else {
        page.put_decimal(row);
    }
}

fn put_unit(page: &mut Page, start: u32, end: u32, row: u32)
    requires { page.old.len + unit_line_bytes ≤ length page.old.bytes.now }
    ensures { Prints unit_line_bytes page.old (unit_line (record { start = start; end = end; row = row })) page.new }
{
    page.put_decimal(start);
    page.put(b" ");
    page.put_decimal(end);
    page.put(b" ");
    put_row(page, row);
    page.put(b"\n");
}

// The pass is a word of the result, a number of the C interface.
fn put_pass(page: &mut Page, pass: u32)
    requires { page.old.len + 14 ≤ length page.old.bytes.now }
    ensures { Prints 14 page.old (pass_word pass) page.new }
{
    match pass {
        0 => page.put(b"nuclei-strict"),
        1 => page.put(b"count-strict"),
        2 => page.put(b"count-relaxed"),
        3 => page.put(b"nuclei-relaxed"),
        4 => page.put(b"none"),
        5 => page.put(b"unvoiced"),
        _ => (),
    }
}

// The candidate's line up to its score.
fn put_name(page: &mut Page, id: u32, llr: u32)
    requires { page.old.len + 29 ≤ length page.old.bytes.now }
    ensures { Prints 29 page.old (name_text id llr) page.new }
{
    page.put(b"candidate ");
    page.put_decimal(id);
    page.put(b" ");
    page.put_hexadecimal(llr);
}

fn put_head(page: &mut Page, id: u32, llr: u32, pass: u32, units: u32)
    requires { page.old.len + head_line_bytes ≤ length page.old.bytes.now }
    ensures { Prints head_line_bytes page.old (head_line id llr pass units) page.new }
{
    put_name(page, id, llr);
    page.put(b" ");
    put_pass(page, pass);
    page.put(b" ");
    page.put_decimal(units);
    page.put(b"\n");
}

fn put_units(page: &mut Page, units: &[[u32; UNIT_WORDS]])
    requires room { page.old.len + unit_line_bytes * length units.now ≤ length page.old.bytes.now }
    ensures { Prints (unit_line_bytes * length units.now) page.old (unit_lines (map unit_in units.now)) page.new }
{
    for [start, end, row] in units {
        put_unit(page, *start, *end, *row);
    }
}

// The entry whose words stand at the front.
fn put_entry(page: &mut Page, words: &[u32])
    requires words_in_bounds { page.old.len + entry_bytes (units_of words.now) ≤ length page.old.bytes.now }
    requires words_in_bounds_2 { entry_words (units_of words.now) ≤ length words.now }
    ensures { Prints (entry_bytes (units_of words.now)) page.old (lines_in words.now) page.new }
{
    let count = words[3];
    put_head(page, words[0], words[1], words[2], count);
    let (units, _) = words[HEAD_WORDS..].as_chunks();
    put_units(page, &units[..count as usize]);
}

// So many entries from the front on, each with room for `most` units. The words are all that decoding was lent, and the count is what it
// answered: a slice of the entries alone would have to be measured again for the first line.
pub(crate) fn put_entries(page: &mut Page, words: &[u32], most: usize, count: usize)
    requires most_le_most_units { (most ≤ most_units) × (page.old.len + entry_bytes most_units * count ≤ length page.old.bytes.now) }
    requires all_whole { AllWhole most count words.now }
    ensures { Prints (entry_bytes most_units * count) page.old (all_lines_in (entry_words most) count words.now) page.new }
{
    let size = HEAD_WORDS + UNIT_WORDS * most;
    for entry in words.chunks_exact(size).take(count) {
        put_entry(page, entry);
    }
}
