// Words of the C interface for a frame that may be missing, for a stage and for a strictness.

ghost use Rattle.std.specs.Prelude.{◌≡◌};
ghost use Rattle.tikuwero.specs.Status.{frame_of, stage_named, strictness_named};

use limits::common::ABSENT;
use paths::passes::Strictness;
use record::read::Which;

pub fn frame_of(word: u32) -> Option<u32>
    ensures { result ≡ frame_of word }
{
    if word == ABSENT { None } else { Some(word) }
}

// This, the next and `stage_boundaries` of frames tell word 0 from the others. One generic `named(word, zero, other)` for the three would
// be no shorter than the `if`.
pub fn stage_named(word: u32) -> Which
    ensures { result ≡ stage_named word }
{
    if word == 0 {
        Which::Nuclei
    } else {
        Which::Count
    }
}

pub fn strictness_named(word: u32) -> Strictness
    ensures { result ≡ strictness_named word }
{
    if word == 0 {
        Strictness::Relaxed
    } else {
        Strictness::Strict
    }
}
