// What each count of units reaches in a stage, laid as for the search, without spans and without figures.

ghost use Rattle.std.specs.Prelude.{◌≡◌};
ghost use Rattle.paths.specs.Anchors.{kept};
ghost use Rattle.prepare.specs.Sides.{phrase_in, stage_in};
ghost use Rattle.stages.specs.Parts.{Searched};

use limits::capacity::MOST_ANCHORS;
use prepare::stage_read::StageRead;
use stages::anchors::place_anchors;
use stages::search::lay_parts;
use stages::stage_tables::StageWords;

// The words that a search reads.
pub(crate) fn lay_reach(stage: &StageRead, words: &mut StageWords)
    ensures { Searched (kept (phrase_in stage.now) (stage_in stage.now)) (stage_in stage.now).boundaries words.new }
{
    let mut anchors = [0u32; MOST_ANCHORS];
    let parts = stage.parts(&mut anchors);
    lay_parts(&parts, &place_anchors(&parts), words);
}
