// Creaky tails, after `creaky_tail` of evidence.rs.

ghost use Rattle.std.specs.Prelude.{◌≡◌, ◌-◌, ◌<◌, ◌^◌};
ghost use Rattle.frames.specs.Outcome.{outcome};
ghost use Rattle.evidence.specs.CreakyTail.{creaky_tail_of, tail_from, last_pitched, run_from, stop_of, in_tail};

use crate::masks;
use frames::list::any_above;
use frames::sizes::MOST_BYTES;
use frames::span::Span;
use limits::common::LAST_FRAME;
use limits::refusal::Refusal;

// A creaky tail has at least this many frames.
const MIN_TAIL_FRAMES: usize = 5;

// The last pitched frame of a span.
fn last_pitched(pitched: &[u8], span: Span) -> Option<u32>
    ensures { result ≡ last_pitched pitched.now span.start span.end }
{
    for frame in (span.start..span.end).rev() {
        if masks::marked(pitched, frame as usize) {
            return Some(frame);
        }
    }
    None
}

// Where a run has to stop: at the next nucleus, and never past the pitch mask.
fn stop_of(next: Option<u32>, len: usize) -> usize
    ensures { result ≡ stop_of next len }
{
    next.map_or(len, |frame| frame as usize).min(len)
}

// The masks of a phrase that a tail is read from.
#[derive(Clone, Copy)]
struct Voicing<'a> {
    pitched: &'a [u8],
    vowel_speech: &'a [u8],
}

impl Voicing<'_> {
    // Whether a frame is unpitched vowel speech.
    fn in_tail(self, frame: usize) -> bool
        ensures { result ≡ in_tail self.entry.pitched.now self.entry.vowel_speech.now frame }
    {
        !masks::marked(self.pitched, frame) & masks::marked(self.vowel_speech, frame)
    }

    // How many frames of a tail follow one another from `first` on, before `stop`.
    fn run_from(self, first: usize, stop: usize) -> usize
        ensures { result ≡ run_from self.entry.pitched.now self.entry.vowel_speech.now first (stop - first) }
    {
        (first..stop)
            .take_while(|frame| self.in_tail(*frame))
            .count()
    }

    // Whether the run from `first` on is long enough and is not joined to the next nucleus.
    fn tail_from(self, next: Option<u32>, first: usize) -> bool
        requires { first < 2 ^ 63 }
        ensures { result ≡ tail_from next self.entry.pitched.now self.entry.vowel_speech.now first }
    {
        let stop = stop_of(next, self.pitched.len());
        let run = self.run_from(first, stop);
        let after = first + run;
        let joined = next.is_some() & ((stop <= after) | masks::marked(self.pitched, after));
        (MIN_TAIL_FRAMES <= run) & !joined
    }
}

// Whether the syllable on a span ends in creak: a run of unpitched vowel speech that does not go on into the next one. The parameters
// are those that the C interface lends, one by one.
pub fn creaky_tail(
    start: u32,
    end: u32,
    next: Option<u32>,
    pitched: &[u8],
    vowel_speech: &[u8],
) -> Result<bool, Refusal>
    ensures { outcome result ≡ creaky_tail_of start end next pitched.now vowel_speech.now }
{
    if (pitched.len() > MOST_BYTES) | (vowel_speech.len() > MOST_BYTES) {
        return Err(Refusal::Size);
    }
    if any_above(pitched, masks::HIGHEST)
        | any_above(vowel_speech, masks::HIGHEST)
        | (start > LAST_FRAME)
        | (end > LAST_FRAME)
        | next.is_some_and(|frame| frame > LAST_FRAME)
    {
        return Err(Refusal::Track);
    }
    let voicing = Voicing {
        pitched,
        vowel_speech,
    };
    let Some(last) = last_pitched(pitched, Span { start, end }) else {
        return Ok(false);
    };
    Ok(voicing.tail_from(next, last as usize + 1))
}
