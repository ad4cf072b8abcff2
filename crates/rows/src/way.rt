// The ways into a cell, what the cell rule keeps of them, and the marks that they leave.

ghost use Rattle.std.specs.Prelude.{◌≡◌, ◌<◌};
ghost use Rattle.rows.specs.Ways.{way_value, way_mark, Markable, or_later, step_mark};

// "A way into a cell (units so far, boundary) is a start, a gap or a unit, each with its own f64 value" (document 01);
// a unit comes with the boundary that it starts from.
#[derive(Clone, Copy)]
pub enum Way {
    Start(f64),
    Gap(f64),
    Unit(f64, usize),
}

impl Way {
    pub fn value(self) -> f64
        ensures { result ≡ way_value self }
    {
        match self {
            Way::Start(value) => value,
            Way::Gap(value) => value,
            Way::Unit(value, _) => value,
        }
    }

    // "A later way replaces only when strictly greater."
    #[tactic(auto, unfolding(crate::specs::Ways::or_later))]
    pub fn or(self, later: Way) -> Way
        ensures { result ≡ or_later self later }
    {
        if later.value() > self.value() {
            later
        } else {
            self
        }
    }

    // What `back` keeps of a way, a number since the C interface lends its cells: 1 a start, 2 a gap, 3 + i a unit from boundary i.
    pub fn mark(self) -> u32
        requires { Markable self }
        ensures { result ≡ way_mark self }
    {
        match self {
            Way::Start(_) => 1,
            Way::Gap(_) => 2,
            Way::Unit(_, origin) => 3 + (origin as u32),
        }
    }
}

// What a mark says of the way that left it: its kind, and the boundary that a unit starts from.
pub(crate) enum Step {
    Start,
    Gap,
    Unit(u32),
}

impl Step {
    // Of a cell that a way reached: none leaves 0.
    pub(crate) fn of(mark: u32) -> Step
        requires { 0 < mark }
        ensures { mark ≡ step_mark result }
    {
        match mark {
            1 => Step::Start,
            2 => Step::Gap,
            _ => Step::Unit(mark - 3),
        }
    }
}
