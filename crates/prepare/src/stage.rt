// One stage of an accepted record, laid into lent tables: what its search reads, and the spans of its kept anchors.

ghost use Rattle.std.specs.Prelude.{◌≡◌, ◌-◌, ◌<◌, ◌≤◌, ◌^◌, length, slice_index_or};
ghost use Rattle.record.specs.Meaning.{phrase_of, stage_of};
ghost use Rattle.record.specs.Inner.Reading.{HasTable};
ghost use Rattle.stages.specs.Kept.{kept_of};
ghost use Rattle.stages.specs.Ranges.{entry_of};
ghost use Rattle.stages.specs.Search.{no_span, no_spans};
ghost use Rattle.prepare.specs.Sides.{first_row_in, Followed, listed_before, RowsWithin, Spans, Worded, Prepared};

use crate::stage_read::StageRead;
use frames::span::Span;
use limits::capacity::{MOST_ANCHORS, MOST_BOUNDARIES};
use limits::common::SHORTEST_UNIT;
use reading::accepted::AcceptedRecord;
use record::layout::Layout;
use record::read::{Edges, Which};
use spans::bounds::Bounds;
use spans::walk::spans_ascending;
use stages::anchors::{PlacedAnchors, place_anchors};
use stages::filler::lay_filler;
use stages::search::lay_parts;
use stages::stage_parts::StageParts;
use stages::stage_tables::{NO_SPAN, StageFigures, StageTables, StageWords};
use stages::tables::write_each;

// Where the stage's score rows begin.
pub fn row_from(at: Layout, which: Which) -> u32
    requires { at.nuclei.count < 2 ^ 32 }
    ensures { result ≡ first_row_in at which }
{
    match which {
        Which::Nuclei => 0,
        Which::Count => at.nuclei.count as u32,
    }
}

// Of the spans of all listed anchors, that of the last kept one before a place. A kept anchor's row, less the first one, is its listed place.
fn listed_before(spans: &[Span], rows: &[u32], first_row: u32, place: u32) -> Span
    requires placed { place ≤ length rows.now }
    requires from { 0 < place → first_row ≤ entry_of rows.now (place - 1) }
    requires within { 0 < place → entry_of rows.now (place - 1) - first_row < length spans.now }
    ensures { result ≡ listed_before (λ i. slice_index_or spans.now i no_span) rows.now first_row place }
{
    (place as usize)
        .checked_sub(1)
        .map_or(NO_SPAN, |at| spans[(rows[at] - first_row) as usize])
}

// The span of the last kept anchor before each boundary. Each listed anchor's span is found once, however many boundaries follow it.
fn lay_spans(
    stage: &StageParts,
    placed: &PlacedAnchors,
    edges: Edges,
    spans: &mut [Span; MOST_BOUNDARIES],
)
    requires followed { Followed stage.now.anchors.now }
    requires rows_within { RowsWithin placed.now.rows stage.now.first_row placed.now.places (length stage.now.bounds.now) (length stage.now.anchors.now) }
    requires spare { spans.old ≡ no_spans }
    ensures { Spans stage.now.anchors.now stage.now.bounds.now edges.start edges.end placed.now.rows stage.now.first_row
        placed.now.places spans.new }
{
    let n = stage.bounds.len();
    let rows = &placed.rows;
    let mut listed = [NO_SPAN; MOST_ANCHORS];
    let bounds = Bounds {
        boundaries: stage.bounds,
        lo_edge: edges.start,
        hi_edge: edges.end,
    };
    spans_ascending(stage.anchors, &bounds, &mut listed);
    write_each(
        &mut spans[..n],
        |j| listed_before(&listed, rows, stage.first_row, placed.places[j]),
    );
}

fn lay_words(stage: &StageParts, edges: Edges, words: &mut StageWords)
    requires { Followed stage.now.anchors.now }
    ensures { Worded (kept_of stage.now) stage.now.anchors.now stage.now.bounds.now edges.start edges.end words.new }
{
    let placed = place_anchors(stage);
    lay_parts(stage, &placed, words);
    lay_spans(stage, &placed, edges, &mut words.spans);
}

impl<'a> StageRead<'a> {
    ghost use Rattle.std.specs.Prelude.{◌≡◌};
    ghost use Rattle.record.specs.Inner.Reading.{HasTable};
    ghost use Rattle.prepare.specs.Sides.{phrase_in, stage_in, IsStage, WordsOf, Figured};

    // Reads the boundaries, into the front of the array.
    pub fn new(
        accepted: &'a AcceptedRecord<'a>,
        which: Which,
        bounds: &'a mut [u32; MOST_BOUNDARIES],
    ) -> StageRead<'a>
        ensures accepted { result.accepted.now.bytes.now ≡ accepted.now.bytes.now }
        ensures which { result.which ≡ which }
    {
        let n = accepted.boundaries(which, bounds);
        StageRead {
            accepted,
            which,
            bounds: &bounds[..n],
        }
    }

    // The parts of the stage, of which the anchors are read, into the front of the array.
    pub fn parts<'b>(&'b self, anchors: &'b mut [u32; MOST_ANCHORS]) -> StageParts<'b>
        ensures { IsStage (phrase_in self.now) (stage_in self.now) result }
    {
        let n = self.accepted.anchors(self.which, anchors);
        StageParts {
            mask: self.accepted.mask(),
            anchors: &anchors[..n],
            first_row: row_from(self.accepted.at, self.which),
            bounds: self.bounds,
        }
    }

    // The words of the stage.
    fn lay_stage_words(&self, edges: Edges, words: &mut StageWords)
        ensures { WordsOf (phrase_in self.now) (stage_in self.now) edges.start edges.end words.new }
    {
        let mut anchors = [0u32; MOST_ANCHORS];
        let stage = self.parts(&mut anchors);
        lay_words(&stage, edges, words);
    }

    // The figures of the stage. The nuclei are the record's, whatever the stage.
    fn lay_figures(&self, figures: &mut StageFigures)
        requires { HasTable self.now.which (phrase_in self.now) }
        ensures { Figured (phrase_in self.now) (stage_in self.now) figures.new }
    {
        let mut nuclei = [0u32; MOST_ANCHORS];
        let n = self.accepted.anchors(Which::Nuclei, &mut nuclei);
        lay_filler(
            self.accepted.mask(),
            &nuclei[..n],
            self.bounds,
            self.accepted.costs(),
            &mut figures.filler,
        );
        write_each(
            &mut figures.durations,
            |i| self.accepted.duration(self.which, i + SHORTEST_UNIT),
        );
    }
}

// The added stage has tables only where it has an anchor.
pub fn lay_stage(accepted: &AcceptedRecord, which: Which, edges: Edges, tables: &mut StageTables)
    requires { HasTable which (phrase_of accepted.now.bytes.now) }
    ensures { Prepared (phrase_of accepted.now.bytes.now) (stage_of which (phrase_of accepted.now.bytes.now)) edges.start edges.end
        tables.new }
{
    let mut bounds = [0u32; MOST_BOUNDARIES];
    let stage = StageRead::new(accepted, which, &mut bounds);
    stage.lay_stage_words(edges, &mut tables.words);
    stage.lay_figures(&mut tables.figures);
}
