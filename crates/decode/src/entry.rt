// The entry of one candidate, after `Decoder::score` of closed.rs.

ghost use Rattle.std.specs.Prelude.{◌++◌, ◌≡◌, ◌+◌, ◌*◌, ◌≤◌, ◌<◌, length, drop};
ghost use Rattle.closed.specs.Answered.{Says};
ghost use Rattle.closed.specs.Asked.{columns_of, Unused};
ghost use Rattle.entries.specs.Inner.Placing.{Inserted};
ghost use Rattle.entries.specs.Ranking.{ranked};
ghost use Rattle.entries.specs.Words.{all_words};
ghost use Rattle.paths.specs.Search.{chosen};
ghost use Rattle.limits.specs.Sizes.{entry_words, work_cells};
ghost use Rattle.record.specs.Inner.Reading.{candidate_of};
ghost use Rattle.decoding.specs.EntryOf.{entry_of, entries_of};
ghost use Rattle.decode.specs.Decoders.{phrase_by, limits_by};
ghost use Rattle.decode.specs.Scored.{HeadOf, ScoredAs};

use crate::decoder::Decoder;
use crate::missed::missed_unit;
use crate::report::report_units;
use closed::search::{Found, Missed, search};
use closed::task::Task;
use entries::ranking::insert_entry;
use entries::words::EntryHead;
use frames::unit::PlacedUnit;
use ieee::convert::clamp_log;
use limits::capacity::MOST_UNITS;
use limits::edition::limits_of;

// "llr: the sum clamped to ±1,000,000, then nearest-even to f32."
fn head_of(id: u32, pass: u32, total: f64) -> EntryHead
    ensures { HeadOf id pass total result }
{
    EntryHead {
        id,
        llr: clamp_log(total),
        pass,
        total,
    }
}

impl Decoder<'_> {
    // The head of a candidate's entry, and its units, one for each of its columns, over `units`. "No path: f32 k × unvoiced, widened", and
    // empty spans where speech starts.
    fn score(
        &self,
        candidate: usize,
        searched: Result<Found, Missed>,
        units: &mut [PlacedUnit],
    ) -> EntryHead
        requires candidate_in_bounds { candidate < length (phrase_by self.now).candidates }
        requires says { Says (chosen (phrase_by self.now) (columns_of self.now.accepted.bytes.now candidate)) searched }
        requires unit_each { length units.old ≡ length (columns_of self.now.accepted.bytes.now candidate) }
        ensures { ScoredAs (limits_by self.now).units
            (entry_of (phrase_by self.now) (candidate_of (phrase_by self.now) candidate)) result units.new }
    {
        let id = self.accepted.id(candidate);
        match searched {
            Ok(found) => {
                let path = found.path.units;
                let tables = found.pass.pick(Some(self.nuclei), self.added).unwrap();
                report_units(&path[..units.len()], &tables.words, units);
                head_of(id, u32::from(found.pass), found.path.sum)
            }
            Err(missed) => {
                units.fill(missed_unit(self.plan.edges.start));
                let total = self.plan.costs.unanchored_units(units.len());
                head_of(id, u32::from(missed), total)
            }
        }
    }

    // One more candidate: its entry goes to its rank among those before it. The work areas end as they came; they go down as the C interface
    // lends them, two slices, which a struct of two `&mut` would have to be taken apart for at every call.
    fn put_candidate(&self, best: &mut [f64], back: &mut [u32], number: usize, out: &mut [u32])
        requires unused { Unused best.old back.old (work_cells (limits_by self.now)) }
        requires number_in_bounds { number < length (phrase_by self.now).candidates }
        requires room { (number + 1) * entry_words (limits_by self.now).units ≤ length out.old }
        ensures inserted { Inserted (limits_by self.now).units number
            (entry_of (phrase_by self.now) (candidate_of (phrase_by self.now) number))
            out.old out.new }
        ensures best_unchanged { (best.new ≡ best.old) × (back.new ≡ back.old) }
    {
        let task = Task {
            accepted: self.accepted,
            costs: self.plan.costs,
            candidate: number,
        };
        let searched = search(best, back, &task, self.nuclei, self.added, self.plan.runs);
        let k = self.accepted.units(number);
        let mut room = [missed_unit(0); MOST_UNITS];
        let units = &mut room[..k];
        let head = self.score(number, searched, units);
        insert_entry(
            out,
            number,
            limits_of(self.accepted.at.edition).units,
            head,
            units,
        );
    }

    // Every candidate of the record, in its order.
    pub fn put_candidates(&self, best: &mut [f64], back: &mut [u32], out: &mut [u32])
        requires unused { Unused best.old back.old (work_cells (limits_by self.now)) }
        requires room { length (phrase_by self.now).candidates * entry_words (limits_by self.now).units ≤ length out.old }
        ensures out_after { out.new ≡ all_words (limits_by self.now).units (ranked (entries_of (phrase_by self.now)))
            ++ drop (length (phrase_by self.now).candidates * entry_words (limits_by self.now).units) out.old }
        ensures best_unchanged { (best.new ≡ best.old) × (back.new ≡ back.old) }
    {
        for candidate in 0..self.accepted.at.candidates.count {
            self.put_candidate(best, back, candidate, out);
        }
    }
}
