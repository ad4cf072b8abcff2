// Which units a pass allows, and the passes, after `Pass` and `Which` of closed.rs.

ghost use Rattle.std.specs.Prelude.{◌≡◌};
ghost use Rattle.paths.specs.Passes.{of_pass, pass_number, pass_strictness};

// What a unit must hold: exactly one anchor, or none or one.
#[derive(Clone, Copy, Debug, PartialEq, Eq)]
pub enum Strictness {
    Strict,
    Relaxed,
}

// The passes, by stage (the nuclei's, or the added one, which the Rust calls the count stage) and strictness.
#[derive(Clone, Copy, Debug, PartialEq, Eq)]
pub enum Pass {
    NucleiStrict,
    CountStrict,
    CountRelaxed,
    NucleiRelaxed,
}

impl Pass {
    // Of what belongs to the nuclei's stage and what belongs to the added one, that of the stage which the pass searches.
    pub fn pick<T: Copy>(self, nuclei: T, added: T) -> T
        ensures { result ≡ of_pass nuclei added self }
    {
        match self {
            Pass::NucleiStrict | Pass::NucleiRelaxed => nuclei,
            Pass::CountStrict | Pass::CountRelaxed => added,
        }
    }
}

// What a pass asks of each unit.
impl From<Pass> for Strictness {
    ghost from_gives = { λ pass strictness. strictness ≡ pass_strictness pass };

    fn from(pass: Pass) -> Strictness {
        match pass {
            Pass::NucleiStrict | Pass::CountStrict => Strictness::Strict,
            Pass::CountRelaxed | Pass::NucleiRelaxed => Strictness::Relaxed,
        }
    }
}

// The number of the pass in a result entry.
impl From<Pass> for u32 {
    ghost from_gives = { λ pass number. number ≡ pass_number pass };

    fn from(pass: Pass) -> u32 {
        match pass {
            Pass::NucleiStrict => 0,
            Pass::CountStrict => 1,
            Pass::CountRelaxed => 2,
            Pass::NucleiRelaxed => 3,
        }
    }
}
