// The three cost figures of a record and what follows from them: the filler cost, after `Filler::cost` of closed.rs, and the score of units
// without an anchor.

ghost use Rattle.std.specs.Prelude.{not, ◌≡◌, ◌≤◌, T};
ghost use Rattle.std.specs.Float.Ieee.{is_nan};
ghost use Rattle.limits.specs.Capacity.{most_units};
ghost use Rattle.phrase.specs.Filler.{filler_cost};
ghost use Rattle.phrase.specs.Inner.Unanchored.{unanchored_units};

use ieee::convert::widen;

// The figures travel together, by value (document 01, "How a path is scored").
#[derive(Clone, Copy)]
pub struct Costs {
    pub per_frame: f64,
    pub insertion_llr: f64,
    pub unvoiced: f32,
}

impl Costs {
    // The cost of leaving `speech` speech frames and `inserted` nuclei to no unit.
    pub fn cost(self, speech: u32, inserted: u32) -> f64
        ensures { result ≡ filler_cost self speech inserted }
    {
        self.per_frame * (speech as f64) - self.insertion_llr * (inserted as f64)
    }

    // "The unvoiced score where there is no anchor": that of one unit.
    pub fn unanchored(self) -> f64
        requires { T (not (is_nan self.«unvoiced»)) }
        ensures { result ≡ self.«unvoiced» }
    {
        self.unvoiced as f64
    }

    // "f32 k × unvoiced, widened": that of k units. The search asks the same of a count of units (`trace`, `finish`); a type for such counts
    // would be opened again at each sum and index.
    pub fn unanchored_units(self, k: usize) -> f64
        requires { k ≤ most_units }
        ensures { result ≡ unanchored_units self k }
    {
        widen(k as u16 as f32 * self.unvoiced)
    }
}
