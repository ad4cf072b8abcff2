// The words of one result entry (document 01, "Spans, marks and order"; document 02, Ask 2).

ghost use Rattle.std.specs.Prelude.{◌≡◌, not, [], ◌∷◌, ◌++◌, ◌*◌, ◌≤◌, ◌^◌, ◌<◌, T, length, drop, map};
ghost use Rattle.std.specs.Float.{binary32, binary64};
ghost use Rattle.std.specs.Float.Ieee.{is_nan, to_bits};
ghost use Rattle.limits.specs.Sizes.{entry_words};
ghost use Rattle.entries.specs.Words.{low_half, high_half, unit_words, words_of};
ghost use Rattle.entries.specs.Inner.EntryFrom.{unit_from, Writable, entry_from};

use frames::unit::PlacedUnit;
use limits::common::ABSENT;
use limits::edition::{HEAD_WORDS, UNIT_WORDS};

// The weight of the lowest bit of a sum's high half.
const HALF: u64 = 0x1_0000_0000;

// An entry without its units. `total` is the score before it is clamped and narrowed to the llr.
#[derive(Clone, Copy)]
pub struct EntryHead {
    pub id: u32,
    pub llr: f32,
    pub pass: u32,
    pub total: f64,
}

// The low and the high half of a sum's bits.
fn halves(sum: f64) -> (u32, u32)
    requires { T (not (is_nan sum)) }
    ensures { result ≡ (low_half (to_bits binary64 sum), high_half (to_bits binary64 sum)) }
{
    let bits = sum.to_bits();
    let low = (bits % HALF) as u32;
    let high = (bits / HALF) as u32;
    (low, high)
}

// The words before the units, of which there are so many.
fn head_words(head: EntryHead, units: usize) -> [u32; HEAD_WORDS]
    requires { (units < 2 ^ 32) × T (not (is_nan head.llr)) × T (not (is_nan head.total)) }
    ensures { result
        ≡ head.id ∷ to_bits binary32 head.llr ∷ head.pass ∷ units ∷ low_half (to_bits binary64 head.total)
        ∷ high_half (to_bits binary64 head.total) ∷ [] }
{
    let (low, high) = halves(head.total);
    [
        head.id,
        head.llr.to_bits(),
        head.pass,
        units as u32,
        low,
        high,
    ]
}

fn put_units(out: &mut [u32], units: &[PlacedUnit])
    requires { length out.old ≡ 3 * length units.now }
    ensures { out.new ≡ unit_words (map unit_from units.now) }
{
    for (i, unit) in units.iter().enumerate() {
        let at = UNIT_WORDS * i;
        let row = unit.row.unwrap_or(ABSENT);
        out[at..at + UNIT_WORDS].copy_from_slice(&[unit.span.start, unit.span.end, row]);
    }
}

// The words of an entry with room for `most` units, over the first of `out`.
pub fn put_entry(out: &mut [u32], most: usize, head: EntryHead, units: &[PlacedUnit])
    requires most_in_bounds { entry_words most ≤ length out.old }
    requires writable { Writable most head units.now }
    ensures { out.new ≡ words_of most (entry_from head units.now) ++ drop (entry_words most) out.old }
{
    let used = HEAD_WORDS + UNIT_WORDS * units.len();
    out[..HEAD_WORDS].copy_from_slice(&head_words(head, units.len()));
    put_units(&mut out[HEAD_WORDS..used], units);
    out[used..HEAD_WORDS + UNIT_WORDS * most].fill(0);
}
