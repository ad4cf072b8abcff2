// What a call is refused by. Every entry answers with one of these in place of a value.

ghost use Rattle.std.specs.Prelude.{◌≡◌};
ghost use Rattle.limits.specs.Refusals.{number_of};

// Document 01's words, in its order; `number_of` of specs/Refusals.antt gives their numbers.
#[derive(Clone, Copy, Debug, PartialEq, Eq)]
pub enum Refusal {
    Stub,
    Edition,
    Size,
    Reach,
    Track,
    Cost,
    Bare,
    Twice,
    Units,
    Column,
    Desk,
}

// Document 01's number.
impl From<Refusal> for u32 {
    ghost from_gives = { λ refusal number. number ≡ number_of refusal };

    fn from(refusal: Refusal) -> u32 {
        match refusal {
            Refusal::Stub => 1,
            Refusal::Edition => 2,
            Refusal::Size => 3,
            Refusal::Reach => 4,
            Refusal::Track => 5,
            Refusal::Cost => 6,
            Refusal::Bare => 7,
            Refusal::Twice => 8,
            Refusal::Units => 9,
            Refusal::Column => 10,
            Refusal::Desk => 11,
        }
    }
}
