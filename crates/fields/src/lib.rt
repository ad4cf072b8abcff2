// The fields of a candidate's entry.

#![tactic(auto)]

ghost use Rattle.std.specs.Prelude.{◌≡◌, ◌+◌, ◌≤◌, ◌<◌, length};
ghost use Rattle.limits.specs.Sizes.{candidate_bytes};
ghost use Rattle.record.specs.Inner.Bounds.{CandidatesRead};
ghost use Rattle.record.specs.Conditions.{candidate_start, id_at, units_at, column_at};

use limits::edition::{COLUMNS_AT, COUNT_AT, Limits};
use record::bytes::{byte_at, u32_at};
use record::layout::Layout;

// The candidates of a record, whose entries lie within it.
#[derive(Clone, Copy)]
pub struct CandidateList<'a> {
    pub bytes: &'a [u8],
    pub limits: Limits,
    pub at: Layout,
    ghost candidates_read: { CandidatesRead limits (length bytes.now) at },
}

// Each asks that candidate `i` is one of the list, as indexing a slice does; so do the checks of `candidates` and the readers of
// `AcceptedRecord`. A type for such an `i` would move that to where it is made, which is beside each call.
impl CandidateList<'_> {
    // Where the entry of candidate `i` stands.
    fn start(&self, i: usize) -> usize
        requires { i < self.now.at.candidates.count }
        ensures place { result ≡ candidate_start self.now.limits self.now.at i }
        ensures within { result + candidate_bytes self.now.limits ≤ length self.now.bytes.now }
    {
        self.at.candidates.start + self.limits.candidate_bytes() * i
    }

    pub fn id(&self, i: usize) -> u32
        requires { i < self.now.at.candidates.count }
        ensures { result ≡ id_at self.now.limits self.now.bytes.now self.now.at i }
    {
        u32_at(self.bytes, self.start(i))
    }

    pub fn units(&self, i: usize) -> usize
        requires { i < self.now.at.candidates.count }
        ensures { result ≡ units_at self.now.limits self.now.bytes.now self.now.at i }
    {
        u32_at(self.bytes, self.start(i) + COUNT_AT) as usize
    }

    pub fn column(&self, i: usize, j: usize) -> usize
        requires i_lt_count { i < self.now.at.candidates.count }
        requires j_lt_units { j < self.now.limits.units }
        ensures { result ≡ column_at self.now.limits self.now.bytes.now self.now.at i j }
    {
        byte_at(self.bytes, self.start(i) + COLUMNS_AT + j) as usize
    }
}
