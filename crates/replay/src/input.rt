// What a stored case holds besides words: lists and floats.

ghost use Rattle.std.specs.Prelude.{◌≡◌, length, min};

use std::num::f64_from_bits_with_nan;
use whole_input::words::Words;

// The float of two words, the lower half first; for the pattern of a NaN, some NaN.
pub(crate) fn float(words: &mut Words) -> f64 {
    let low = words.word();
    let high = words.word();
    f64_from_bits_with_nan(u64::from(low) + (u64::from(high) << 32))
}

// Puts so many words into the cells, as far as there is room, and answers with those.
pub(crate) fn list<'c>(words: &mut Words, count: u32, cells: &'c mut [u32]) -> &'c [u32]
    ensures { length result.now ≡ min count (length cells.old) }
{
    let room = cells.len().min(count as usize);
    let listed = &mut cells[..room];
    for cell in listed.iter_mut() {
        *cell = words.word();
    }
    listed
}
