// The boundary list of one stage (document 01, "The phrase record").

ghost use Rattle.std.specs.Prelude.{◌≡◌, cond, eqb};

// Stage word 0 is the nuclei stage, every other word the added one. The list goes back as the caller's own slice. Two functions of
// tikuwero tell word 0 from the others too: one generic `named(word, zero, other)` for the three would be no shorter than the `if`.
pub fn stage_boundaries<'a>(nuclei: &'a [u32], added: &'a [u32], stage: u32) -> &'a [u32]
    ensures { result ≡ cond (eqb stage 0) nuclei.entry added.entry }
{
    if stage == 0 { nuclei } else { added }
}
