// Refusal 5: the mask, the four frame lists and the speech edges. The mask and each list are walked to their end, whatever is found on the
// way, so that the walk compiles to vector code: by `any`, which stops there, a mask of 2,048 frames takes 12,313 instructions for 873.

#![tactic(auto)]

ghost use Rattle.std.specs.Prelude.{◌≡◌, ◌+◌, ◌*◌, ◌≤◌, length};
ghost use Rattle.record.specs.Inner.Bounds.{Within};
ghost use Rattle.record.specs.Format.{costs_bytes};
ghost use Rattle.record.specs.Conditions.{bad_mask, unordered, bad_list, bad_edges, speech_start, speech_end, bad_track};

use limits::common::{ABSENT, LAST_FRAME};
use record::bytes::{numbers_at, u32_at};
use record::format::{SPEECH_END_AT, SPEECH_START_AT};
use record::layout::{Layout, Section};

fn bad_mask(bytes: &[u8], s: Section) -> bool
    requires { s.start + s.count ≤ length bytes.now }
    ensures { result ≡ bad_mask bytes.now s }
{
    bytes[s.start..s.start + s.count]
        .iter()
        .fold(false, |bad, byte| bad | (*byte > 1))
}

// Each frame is compared with the one before it. `is_sorted_by` stops at the first that is not above it, and compiles to no vector code.
fn unordered(bytes: &[u8], s: Section) -> bool
    requires { s.start + 4 * s.count ≤ length bytes.now }
    ensures { result ≡ unordered bytes.now s }
{
    let frames = numbers_at(bytes, s.start, s.count);
    let mut bad = false;
    for i in 1..frames.len() {
        bad |= u32::from_le_bytes(frames[i]) <= u32::from_le_bytes(frames[i - 1]);
    }
    bad
}

// A frame above the last there is, or one that is not above the frame before it.
fn bad_list(bytes: &[u8], s: Section) -> bool
    requires { s.start + 4 * s.count ≤ length bytes.now }
    ensures { result ≡ bad_list bytes.now s }
{
    let frames = numbers_at(bytes, s.start, s.count);
    let late = frames.iter().fold(
        false,
        |late, frame| late | (u32::from_le_bytes(*frame) > LAST_FRAME),
    );
    late | unordered(bytes, s)
}

fn bad_edges(start: u32, end: u32) -> bool
    ensures { result ≡ bad_edges start end }
{
    !((start == ABSENT) & (end == ABSENT)) & ((end < start) | (end > LAST_FRAME))
}

fn bad_speech(bytes: &[u8], costs: usize) -> bool
    requires { costs + costs_bytes ≤ length bytes.now }
    ensures { result ≡ bad_edges (speech_start bytes.now costs) (speech_end bytes.now costs) }
{
    bad_edges(
        u32_at(bytes, costs + SPEECH_START_AT),
        u32_at(bytes, costs + SPEECH_END_AT),
    )
}

pub fn bad_track(bytes: &[u8], at: Layout) -> bool
    requires { Within (length bytes.now) at }
    ensures { result ≡ bad_track bytes.now at }
{
    bad_mask(bytes, at.mask)
        | bad_list(bytes, at.nuclei)
        | bad_list(bytes, at.boundaries)
        | bad_list(bytes, at.added_anchors)
        | bad_list(bytes, at.added_boundaries)
        | bad_speech(bytes, at.costs)
}
