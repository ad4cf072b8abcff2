// The kept anchors of a stage, and where each boundary stands among them, after `marks` and `Filler::nucleus_in` of closed.rs.

ghost use Rattle.std.specs.Prelude.{◌≡◌, ◌+◌, ◌<◌, ◌≤◌, ◌^◌, length, replicate};
ghost use Rattle.paths.specs.Frames.{within_mask};
ghost use Rattle.paths.specs.Inner.Order.{Increasing};
ghost use Rattle.paths.specs.Anchors.{kept_in};
ghost use Rattle.paths.specs.Passes.{non_empty};
ghost use Rattle.limits.specs.Capacity.{most_anchors, anchor_room};
ghost use Rattle.laws.specs.Inner.Tables.{written};
ghost use Rattle.limits.specs.Common.{absent};
ghost use Rattle.stages.specs.Kept.{kept_of, Keeps};
ghost use Rattle.stages.specs.Places.{Climbs, count_below, place_before, AnchorsPlaced};

use crate::stage_parts::StageParts;
use limits::capacity::{ANCHOR_ROOM, MOST_EDGES};
use limits::common::ABSENT;

// The anchors of a stage that are within the mask, and the place of each boundary among them: how many are before it, and at last how many
// there are. The frames are followed by `ABSENT`, which no boundary passes, so that the two frames ahead of a boundary are read without a
// test; an Option for each would give each comparison with them a case more. Frames and rows are two arrays, since each walk over them reads
// one alone.
#[derive(Drop)]
pub struct PlacedAnchors {
    pub frames: [u32; ANCHOR_ROOM],
    pub rows: [u32; ANCHOR_ROOM],
    pub places: [u32; MOST_EDGES],
}

// Whether a frame is within the mask.
pub fn within(mask: &[u8], frame: u32) -> bool
    ensures { result ≡ within_mask mask.now frame }
{
    mask.get(frame as usize).is_some_and(|byte| *byte != 0)
}

// The anchors within the mask, in fresh arrays: their frames, then `ABSENT`, and their score rows. A dropped one leaves its row unused. The
// answer is how many there are. The arrays are lent: returned in a struct they are copied, and `tikuwero_most_units` takes 1,344 bytes more
// than the 3,600 of stack that its header promises.
pub fn keep_anchors(
    mask: &[u8],
    anchors: &[u32],
    first_row: u32,
    frames: &mut [u32],
    rows: &mut [u32],
) -> usize
    requires anchors_len_bound { (length anchors.now ≤ most_anchors) × (first_row + length anchors.now < 2 ^ 32) }
    requires frames_value { (frames.old ≡ replicate anchor_room absent) × (rows.old ≡ replicate anchor_room 0) }
    ensures { Keeps (kept_in mask.now first_row anchors.now) result frames.new rows.new }
{
    let mut count: usize = 0;
    for (i, &frame) in anchors.iter().enumerate() {
        if within(mask, frame) {
            frames[count] = frame;
            rows[count] = first_row + (i as u32);
            count += 1;
        }
    }
    count
}

// Whether a nucleus is within the mask.
pub fn has_nucleus(mask: &[u8], nuclei: &[u32]) -> bool
    requires { length nuclei.now ≤ most_anchors }
    ensures { result ≡ non_empty (kept_in mask.now 0 nuclei.now) }
{
    nuclei.iter().any(|&frame| within(mask, frame))
}

// How many frames are below a bound, where the first `from` of them are known to be. The last frame never is. By `partition_point` it is no
// longer made part of its callers, and `tikuwero_most_units` takes 4,352 bytes of stack for the 3,600 that its header promises. `below` of
// `spans` looks on in the same way; one function for both would promise a third thing, from which each would have to show its own.
fn advance(frames: &[u32], from: usize, bound: u32) -> usize
    requires { Climbs 0 absent frames.now × (from ≤ count_below frames.now bound)
        × (count_below frames.now bound < length frames.now) }
    ensures { result ≡ count_below frames.now bound }
{
    for at in from..frames.len() {
        if frames[at] >= bound {
            return at;
        }
    }
    frames.len()
}

// For each boundary, how many of the frames are below it; at last how many there are.
fn place_boundaries(frames: &[u32], bounds: &[u32], places: &mut [u32])
    requires climbs { Climbs 0 absent frames.now × (count_below frames.now absent < length frames.now) × (length frames.now < 2 ^ 32) }
    requires bounds_in_bounds { (length bounds.now < length places.old) × Increasing bounds.now }
    ensures { places.new
        ≡ written (place_before frames.now bounds.now) (length bounds.now + 1) places.old }
{
    let mut place = 0;
    for (j, &bound) in bounds.iter().enumerate() {
        place = advance(frames, place, bound);
        places[j] = place as u32;
    }
    places[bounds.len()] = advance(frames, place, ABSENT) as u32;
}

pub fn place_anchors(stage: &StageParts) -> PlacedAnchors
    ensures { AnchorsPlaced (kept_of stage.now) stage.now.bounds.now result }
{
    let mut placed = PlacedAnchors {
        frames: [ABSENT; ANCHOR_ROOM],
        rows: [0; ANCHOR_ROOM],
        places: [0; MOST_EDGES],
    };
    keep_anchors(
        stage.mask,
        stage.anchors,
        stage.first_row,
        &mut placed.frames,
        &mut placed.rows,
    );
    place_boundaries(&placed.frames, stage.bounds, &mut placed.places);
    placed
}
