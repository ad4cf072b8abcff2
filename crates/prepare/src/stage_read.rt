// A stage of an accepted record, with its boundaries as they are read.

ghost use Rattle.std.specs.Prelude.{◌≡◌};
ghost use Rattle.record.specs.Meaning.{phrase_of, stage_of};

use reading::accepted::AcceptedRecord;
use record::read::Which;

#[derive(Clone, Copy)]
pub struct StageRead<'a> {
    pub accepted: &'a AcceptedRecord<'a>,
    pub which: Which,
    pub bounds: &'a [u32],
    pub ghost read: { bounds.now ≡ (stage_of which (phrase_of accepted.now.bytes.now)).boundaries },
}
