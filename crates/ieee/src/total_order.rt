// The total order of f32, Rust's `f32::total_cmp`, as a number that orders the same. A result entry holds the bits of its score, and is
// ranked by this number of them. std's `total_cmp` asks that neither float is a NaN, so that with it `insert_entry` would have to ask that no
// score that stands in the output is one.

ghost use Rattle.std.specs.Prelude.{◌≡◌, not, T, is_nan};
ghost use Rattle.std.specs.Float.{binary32};
ghost use Rattle.ieee.specs.Inner.Keys.{key_of_bits, total_key};

// The place in the total order of the value with these bits, as a number.
#[tactic(auto, unfolding(crate::specs::Inner::Keys::key_of_bits))]
pub fn key_of_bits(bits: u32) -> u32
    ensures { result ≡ key_of_bits binary32 bits }
{
    if bits < 0x8000_0000 {
        bits + 0x8000_0000
    } else {
        0xffff_ffff - bits
    }
}

// The place of x.
pub fn total_key(x: f32) -> u32
    requires { T (not (is_nan x)) }
    ensures { result ≡ total_key binary32 x }
{
    key_of_bits(f32::to_bits(x))
}
