// What lent memory holds before a call, a mark in every cell, and what it is to hold afterwards.

ghost use Rattle.std.specs.Prelude.{◌||◌, ◌≡◌, Float, Bool, eqb, ltb, length};
ghost use Rattle.std.specs.Float.{nan, binary64};
ghost use Rattle.std.specs.Float.Ieee.{of_bits};
ghost use Rattle.replay.specs.Marks.{mark, float_mark, zero_or_mark, word_or_mark, unlike, same_float};

use whole_input::words::Words;

// A cell of lent memory: its mark, and when two are the same.
pub(crate) trait Cell: Copy {
    const MARK: Self;

    const ZERO: Self;

    ghost MARK: { Self };

    ghost ZERO: { Self };

    // What a clause reads past the last cell.
    ghost past: { Self };

    ghost same: { Self → Self → Bool };

    fn same(self, other: Self) -> bool
        ensures { result ≡ same self other };
}

impl Cell for u32 {
    const MARK: u32 = 0xdead_beef;

    const ZERO: u32 = 0;

    ghost MARK = { mark };

    ghost ZERO = { 0 };

    ghost past = { 0 };

    ghost same = { eqb };

    fn same(self, other: u32) -> bool {
        self == other
    }
}

// +0 and -0 are told apart, and no NaN is the same as any.
impl Cell for f64 {
    const MARK: f64 = 7777.25;

    const ZERO: f64 = 0.0;

    ghost MARK = { float_mark };

    ghost ZERO = { of_bits binary64 0 };

    ghost past = { nan };

    ghost same = { same_float };

    #[tactic(auto, unfolding(crate::specs::Marks::same_float))]
    fn same(self, other: f64) -> bool {
        !self.is_nan() && !other.is_nan() && self.to_bits() == other.to_bits()
    }
}

fn zero_or_mark<T: Cell>(i: usize, count: usize) -> T
    ensures { result ≡ zero_or_mark T.ZERO T.MARK count i }
{
    if i < count { T::ZERO } else { T::MARK }
}

// Whether some cell is not as it should be: 0 in the first cells, so many, and the mark in the others.
pub(crate) fn not_cleared<T: Cell>(cells: &[T], count: usize) -> bool
    ensures { result ≡ unlike T.same T.past (zero_or_mark T.ZERO T.MARK count) cells.now }
{
    cells
        .iter()
        .enumerate()
        .any(|(i, cell)| !cell.same(zero_or_mark(i, count)))
}

fn word_or_mark(body: &[u8], i: usize, count: u32) -> u32
    ensures { result ≡ word_or_mark body.now count i }
{
    if i < count as usize {
        let mut words = Words {
            left: &body[body.len().min(4 * i)..],
        };
        words.word()
    } else {
        u32::MARK
    }
}

// Whether some cell is not as it should be: the case's first words, so many, and the mark in the other cells.
pub(crate) fn not_written(cells: &[u32], body: &[u8], count: u32) -> bool
    ensures { result ≡ (ltb (length cells.now) count || unlike eqb 0 (word_or_mark body.now count) cells.now) }
{
    cells.len() < count as usize
        || cells
            .iter()
            .enumerate()
            .any(|(i, cell)| !cell.same(word_or_mark(body, i, count)))
}
