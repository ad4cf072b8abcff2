// Speech frames counted from boundary to boundary, after `prefix_counts` and `Filler::count` of closed.rs.

ghost use Rattle.std.specs.Prelude.{◌≡◌, ◌+◌, ◌<◌, ◌^◌, length};
ghost use Rattle.paths.specs.Frames.{weight as weight_of, speech_in};
ghost use Rattle.paths.specs.Inner.Order.{Increasing};
ghost use Rattle.laws.specs.Inner.Tables.{written};
ghost use Rattle.stages.specs.Edges.{speech_before};

// What a frame with this mask byte adds to a speech count.
fn weight(byte: u8) -> u32
    ensures { result ≡ weight_of byte }
{
    u32::from(byte != 0)
}

// How many speech frames there are from `from` up to but not including `to`.
pub fn speech_in(mask: &[u8], from: u32, to: u32) -> u32
    requires { length mask.now < 2 ^ 32 }
    ensures { result ≡ speech_in mask.now from to }
{
    let start = mask.len().min(from as usize);
    let end = mask.len().min(to as usize);
    let mut count = 0;
    for at in start..end {
        count += weight(mask[at]);
    }
    count
}

// How many speech frames there are before each boundary, and at last before the mask's end.
pub fn count_speech(mask: &[u8], bounds: &[u32], counts: &mut [u32])
    requires { (length mask.now < 2 ^ 32) × (length bounds.now < length counts.old) × Increasing bounds.now }
    ensures { counts.new
        ≡ written (speech_before mask.now bounds.now) (length bounds.now + 1) counts.old }
{
    let end = mask.len() as u32;
    let mut count = 0;
    let mut from = 0;
    for (j, &to) in bounds.iter().enumerate() {
        count += speech_in(mask, from, to);
        counts[j] = count;
        from = to;
    }
    counts[bounds.len()] = count + speech_in(mask, from, end);
}
