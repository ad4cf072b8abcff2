// What every candidate of a record is decoded with.

ghost use Rattle.std.specs.Prelude.{◌≡◌};
ghost use Rattle.decode.specs.Plans.{DecodeInputs};

use crate::plan::Plan;
use reading::accepted::AcceptedRecord;
use stages::stage_tables::StageTables;

// An accepted record, what is looked up in it, and the tables of its stages; the added stage's are there exactly where that stage is.
#[derive(Clone, Copy)]
pub struct Decoder<'a> {
    pub accepted: AcceptedRecord<'a>,
    pub plan: Plan,
    pub nuclei: &'a StageTables,
    pub added: Option<&'a StageTables>,
    pub ghost inputs: { DecodeInputs accepted.bytes.now plan nuclei added },
}

impl<'a> Decoder<'a> {
    pub fn new(
        accepted: AcceptedRecord<'a>,
        plan: Plan,
        nuclei: &'a StageTables,
        added: Option<&'a StageTables>,
    ) -> Decoder<'a>
        requires { DecodeInputs accepted.bytes.now plan nuclei added }
        ensures accepted { result.accepted ≡ accepted.entry }
        ensures plan { result.plan ≡ plan }
        ensures nuclei { result.nuclei ≡ nuclei.entry }
        ensures added { result.added ≡ added.entry }
    {
        Decoder {
            accepted,
            plan,
            nuclei,
            added,
        }
    }
}
