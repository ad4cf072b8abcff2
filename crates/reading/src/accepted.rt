// An accepted record, and its readers.

ghost use Rattle.std.specs.Prelude.{◌≡◌, ◌+◌, ◌*◌, ◌≤◌, ◌<◌, length, get_or, drop};
ghost use Rattle.limits.specs.Common.{shortest_unit, longest_unit};
ghost use Rattle.record.specs.Layout.{limits_at};
ghost use Rattle.record.specs.Meaning.{frames_at, phrase_of, stage_of};
ghost use Rattle.record.specs.Inner.Accepted.{Laid};
ghost use Rattle.record.specs.Inner.Bounds.{CandidatesRead, Within};
ghost use Rattle.record.specs.Inner.Reading.{anchor_section, boundary_section, table_start, HasTable, edges_of, candidate_of, over, Copied, IsFloat, row_start, ScoreRow};

use fields::CandidateList;
use limits::common::{ABSENT, SHORTEST_UNIT};
use limits::edition::limits_of;
use phrase::costs::Costs;
use record::bytes::{numbers_at, u32_at, u64_at};
use record::format::{
    FIRST_TABLE_AT, INSERTION_AT, SECOND_TABLE_AT, SPEECH_END_AT, SPEECH_START_AT, UNVOICED_AT,
};
use record::layout::{Layout, Section};
use record::read::{Edges, Which};

// A record that no rule of its own refuses, with its layout.
#[derive(Clone, Copy)]
pub struct AcceptedRecord<'a> {
    pub bytes: &'a [u8],
    pub at: Layout,
    ghost laid: { Laid bytes.now at },
    ghost within: { Within (length bytes.now) at },
    ghost candidates_read: { CandidatesRead (limits_at at) (length bytes.now) at },
}

// Where the lists of a stage stand, and its table of durations.
#[derive(Clone, Copy)]
struct StagePlaces {
    anchors: Section,
    boundaries: Section,
    table: usize,
}

fn copy_frames(bytes: &[u8], s: Section, out: &mut [u32]) -> usize
    requires count_in_bounds { s.start + 4 * s.count ≤ length bytes.now }
    requires count_in_bounds_2 { s.count ≤ length out.old }
    ensures { (result ≡ s.count) × (out.new ≡ over (frames_at bytes.now s) out.old) }
{
    for (i, frame) in numbers_at(bytes, s.start, s.count).iter().enumerate() {
        out[i] = u32::from_le_bytes(*frame);
    }
    s.count
}

impl<'a> AcceptedRecord<'a> {
    pub fn new(bytes: &'a [u8], at: Layout) -> AcceptedRecord<'a>
        requires { Laid bytes.now at }
        ensures bytes { result.bytes.now ≡ bytes.now }
        ensures at { result.at ≡ at }
    {
        AcceptedRecord { bytes, at }
    }

    // The mask, as the part of the record that it is.
    pub fn mask(&self) -> &'a [u8]
        ensures { result.now ≡ (phrase_of self.now.bytes.now).mask }
    {
        let start = self.at.mask.start;
        let end = start + self.at.mask.count;
        &self.bytes[start..end]
    }

    fn places(&self, which: Which) -> StagePlaces
        ensures anchors { result.anchors ≡ anchor_section which self.now.at }
        ensures boundaries { result.boundaries ≡ boundary_section which self.now.at }
        ensures table { result.table ≡ table_start which self.now.at }
    {
        match which {
            Which::Nuclei => StagePlaces {
                anchors: self.at.nuclei,
                boundaries: self.at.boundaries,
                table: self.at.costs + FIRST_TABLE_AT,
            },
            Which::Count => StagePlaces {
                anchors: self.at.added_anchors,
                boundaries: self.at.added_boundaries,
                table: self.at.costs + SECOND_TABLE_AT,
            },
        }
    }

    // A stage's anchors, written over the front of `out`; how many there are. Where the part of `out` that holds them is handed back
    // instead, the clause that says what the whole of it becomes gets no generated proof.
    pub fn anchors(&self, which: Which, out: &mut [u32]) -> usize
        requires { length (stage_of which (phrase_of self.now.bytes.now)).anchors ≤ length out.old }
        ensures { Copied (stage_of which (phrase_of self.now.bytes.now)).anchors out.old out.new result }
    {
        copy_frames(self.bytes, self.places(which).anchors, out)
    }

    pub fn boundaries(&self, which: Which, out: &mut [u32]) -> usize
        requires { length (stage_of which (phrase_of self.now.bytes.now)).boundaries ≤ length out.old }
        ensures { Copied (stage_of which (phrase_of self.now.bytes.now)).boundaries out.old out.new result }
    {
        copy_frames(self.bytes, self.places(which).boundaries, out)
    }

    pub fn costs(&self) -> Costs
        ensures { result ≡ (phrase_of self.now.bytes.now).costs }
    {
        let start = self.at.costs;
        Costs {
            per_frame: f64::from_bits(u64_at(self.bytes, start)),
            insertion_llr: f64::from_bits(u64_at(self.bytes, start + INSERTION_AT)),
            unvoiced: f32::from_bits(u32_at(self.bytes, start + UNVOICED_AT)),
        }
    }

    // The speech edges; both words at their greatest mean no speech.
    pub fn speech(&self) -> Option<Edges>
        ensures { edges_of result ≡ (phrase_of self.now.bytes.now).speech }
    {
        let start = u32_at(self.bytes, self.at.costs + SPEECH_START_AT);
        let end = u32_at(self.bytes, self.at.costs + SPEECH_END_AT);
        if (start == ABSENT) & (end == ABSENT) {
            None
        } else {
            Some(Edges { start, end })
        }
    }

    fn candidates(&self) -> CandidateList<'a>
        ensures bytes { result.bytes.now ≡ self.now.bytes.now }
        ensures limits { result.limits ≡ limits_at self.now.at }
        ensures at { result.at ≡ self.now.at }
    {
        CandidateList {
            bytes: self.bytes,
            limits: limits_of(self.at.edition),
            at: self.at,
        }
    }

    pub fn id(&self, i: usize) -> u32
        requires { i < length (phrase_of self.now.bytes.now).candidates }
        ensures { result ≡ (candidate_of (phrase_of self.now.bytes.now) i).id }
    {
        self.candidates().id(i)
    }

    pub fn units(&self, i: usize) -> usize
        requires { i < length (phrase_of self.now.bytes.now).candidates }
        ensures { result ≡ length (candidate_of (phrase_of self.now.bytes.now) i).columns }
    {
        self.candidates().units(i)
    }

    pub fn column(&self, i: usize, j: usize) -> usize
        requires i_in_bounds { i < length (phrase_of self.now.bytes.now).candidates }
        requires j_in_bounds { j < length (candidate_of (phrase_of self.now.bytes.now) i).columns }
        ensures { result ≡ get_or (candidate_of (phrase_of self.now.bytes.now) i).columns j 0 }
    {
        self.candidates().column(i, j)
    }

    // The entry of a stage's table for a unit of so many frames.
    pub fn duration(&self, which: Which, frames: usize) -> f64
        requires has_table { HasTable which (phrase_of self.now.bytes.now) }
        requires shortest_unit_le_frames { (shortest_unit ≤ frames) × (frames ≤ longest_unit) }
        ensures { IsFloat ((stage_of which (phrase_of self.now.bytes.now)).duration frames) result }
    {
        let table = self.places(which).table;
        f64::from_bits(u64_at(self.bytes, table + 8 * (frames - SHORTEST_UNIT)))
    }

    // The part of the record that starts at a row of scores.
    pub fn score_row(&self, row: usize) -> &'a [u8]
        requires { row < length (phrase_of self.now.bytes.now).nuclei.anchors + length (phrase_of self.now.bytes.now).added.anchors }
        ensures result_value { result.now ≡ drop (row_start self.now.at row) self.now.bytes.now }
        ensures score_row { ScoreRow self.now.at.scores.count ((phrase_of self.now.bytes.now).score row) result.now }
    {
        let start = self.at.scores.start + 4 * (row * self.at.scores.count);
        &self.bytes[start..]
    }
}
