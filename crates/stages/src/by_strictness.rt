// A table for each strictness.

use paths::passes::Strictness;

// Entries that go by a pass's strictness: those of its strict passes, and of its relaxed ones.
#[derive(Clone, Copy)]
pub struct ByStrictness<const N: usize> {
    pub strict: [u32; N],
    pub relaxed: [u32; N],
}

impl<const N: usize> ByStrictness<N> {
    ghost use Rattle.std.specs.Prelude.{◌≡◌, ◌<◌};
    ghost use Rattle.stages.specs.Tables.{entry_by};

    pub fn at(&self, strictness: Strictness, i: usize) -> usize
        requires { i < N }
        ensures { result ≡ entry_by self.now strictness i }
    {
        match strictness {
            Strictness::Strict => self.strict[i] as usize,
            Strictness::Relaxed => self.relaxed[i] as usize,
        }
    }
}
