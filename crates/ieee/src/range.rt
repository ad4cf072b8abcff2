// Range tests on the bits of a float. With its sign taken off, a pattern compares as the float's magnitude does; the patterns of
// the infinities and of the NaNs lie above those of all finite values.

ghost use Rattle.std.specs.Prelude.{◌≡◌, ℕ, ◌*◌, ◌%◌, ◌<◌, from_bits};
ghost use Rattle.std.specs.Float.{Format, binary32, binary64};
ghost use Rattle.std.specs.Float.Ieee.{neg, ones, hid, top};
ghost use Rattle.ieee.specs.Range.{between, within};
ghost use Rattle.ieee.specs.Inner.Ranges.{RangeTest};

use crate::sign::{SIGN_32, SIGN_64};

// The bits of a float.
pub trait Pattern: Copy {
    ghost format: { Format };

    ghost number: { Self → ℕ };

    // The bits without the sign's.
    fn magnitude(self) -> u64
        ensures { result ≡ number self % top format };
}

impl Pattern for u32 {
    ghost format = { binary32 };

    ghost number = { λ bits. bits };

    fn magnitude(self) -> u64 {
        u64::from(self % SIGN_32)
    }
}

impl Pattern for u64 {
    ghost format = { binary64 };

    ghost number = { λ bits. bits };

    fn magnitude(self) -> u64 {
        self % SIGN_64
    }
}

// From minus the limit to the limit, the ends included. The limit is a finite float's pattern without a sign, as below.
pub fn within<P: Pattern>(bits: P, limit: u64) -> bool
    requires { limit < ones P.format * hid P.format }
    ensures { RangeTest P.format (within (from_bits P.format limit)) (P.number bits) result }
{
    bits.magnitude() <= limit
}

// From minus the limit up to zero, of either sign.
pub fn nonpositive64(bits: u64, limit: u64) -> bool
    requires { limit < ones binary64 * hid binary64 }
    ensures { RangeTest binary64 (between (neg (from_bits binary64 limit)) (from_bits binary64 0)) bits result }
{
    let magnitude = bits % SIGN_64;
    (magnitude == 0) | ((bits >= SIGN_64) & (magnitude <= limit))
}
