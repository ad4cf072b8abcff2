// Which edges of a span are joined to a neighbouring syllable, after `joins` of evidence.rs.

ghost use Rattle.std.specs.Prelude.{◌≡◌};
ghost use Rattle.frames.specs.Outcome.{outcome};
ghost use Rattle.evidence.specs.Joins.{joined, joins_of};

use crate::masks;
use frames::list::any_above;
use frames::sizes::MOST_BYTES;
use limits::common::LAST_FRAME;
use limits::refusal::Refusal;

// Which edges of a span are joined.
#[derive(Clone, Copy, Debug, PartialEq, Eq)]
pub struct Joined {
    pub start: bool,
    pub end: bool,
}

// The frames around an edge: as many before it as after it at voice level, and pitched up to the frame at it.
const REACH: usize = 3;

const VOICE_FRAMES: usize = 6;

const PITCH_FRAMES: usize = 4;

fn is_joined(voice: &[u8], pitched: &[u8], edge: u32) -> bool
    ensures { result ≡ joined voice.now pitched.now edge }
{
    let edge = edge as usize;
    if edge < REACH {
        return false;
    }
    if voice.len() < edge + REACH {
        return false;
    }
    let first = edge - REACH;
    masks::all_marked(voice, first, VOICE_FRAMES) & masks::all_marked(pitched, first, PITCH_FRAMES)
}

// Which edges of a span the voice runs through, from one syllable straight into the next. Start and end come as the C interface lends
// them.
pub fn joins(voice: &[u8], pitched: &[u8], start: u32, end: u32) -> Result<Joined, Refusal>
    ensures { outcome result ≡ joins_of voice.now pitched.now start end }
{
    if (voice.len() > MOST_BYTES) | (pitched.len() > MOST_BYTES) {
        return Err(Refusal::Size);
    }
    if any_above(voice, masks::HIGHEST)
        | any_above(pitched, masks::HIGHEST)
        | (start > LAST_FRAME)
        | (end > LAST_FRAME)
    {
        return Err(Refusal::Track);
    }
    Ok(Joined {
        start: is_joined(voice, pitched, start),
        end: is_joined(voice, pitched, end),
    })
}
