// The numbers of an edition: how much of each a record may have, and the sizes that follow.

ghost use Rattle.std.specs.Prelude.{◌≡◌};
ghost use Rattle.limits.specs.Edition.{numbers_of, edition1};
ghost use Rattle.limits.specs.Inner.Moderate.{Moderate};
ghost use Rattle.limits.specs.Sizes.{candidate_bytes, entry_words, work_cells};

#[derive(Clone, Copy)]
pub struct Limits {
    pub edition: usize,
    pub frames: usize,
    pub nuclei: usize,
    pub boundaries: usize,
    pub anchors: usize,
    pub columns: usize,
    pub candidates: usize,
    pub units: usize,
}

// A candidate's id and unit count stand before its column bytes.
pub const COUNT_AT: usize = 4;

pub const COLUMNS_AT: usize = 8;

// Id, llr, pass, count of units and the two halves of the sum stand before an entry's units, of three words each.
pub const HEAD_WORDS: usize = 6;

pub const UNIT_WORDS: usize = 3;

// Each asks for moderate numbers, since those of any `Limits` may leave a word. A type that holds no others would ask more of `other_edition`
// and `oversized` (sections), which take any.
impl Limits {
    pub fn candidate_bytes(self) -> usize
        requires { Moderate self }
        ensures { result ≡ candidate_bytes self }
    {
        COLUMNS_AT + self.units
    }

    pub fn entry_words(self) -> usize
        requires { Moderate self }
        ensures { result ≡ entry_words self.units }
    {
        HEAD_WORDS + UNIT_WORDS * self.units
    }

    pub fn work_cells(self) -> usize
        requires { Moderate self }
        ensures { result ≡ work_cells self }
    {
        (self.units + 1) * self.boundaries
    }
}

fn edition_1() -> Limits
    ensures { result ≡ edition1 }
{
    Limits {
        edition: 1,
        frames: 2048,
        nuclei: 32,
        boundaries: 64,
        anchors: 64,
        columns: 64,
        candidates: 16,
        units: 16,
    }
}

// The numbers of the edition that a trailer names. There is one edition; a trailer that names another is refused by 2.
#[tactic(auto, unfolding(crate::specs::Edition::numbers_of))]
pub fn limits_of(edition: usize) -> Limits
    ensures { result ≡ numbers_of edition }
{
    edition_1()
}
