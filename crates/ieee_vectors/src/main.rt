// Runs the conversions and the key of the total order on vectors that Rust made (vectors.rt), and prints how many agree.

#![tactic(auto)]

mod vectors;

ghost use Rattle.std.specs.Prelude.{not, T};
ghost use Rattle.std.specs.Float.Ieee.{is_nan};
ghost use Rattle.std.specs.Iterator.{IsFinite};

use ieee::convert::{clamp_log, narrow, widen};
use ieee::total_order::total_key;
use std::io;
use std::num::f64_from_bits_with_nan;

fn low_half(x: u64) -> u32 {
    (x % 0x1_0000_0000) as u32
}

// The f32 of a pattern; of a NaN's, 0.
fn f32_of(bits: u64) -> f32
    ensures { T (not (is_nan result)) }
{
    let pattern = low_half(bits);
    if pattern % 0x8000_0000 > 0x7f80_0000 {
        0.0
    } else {
        f32::from_bits(pattern)
    }
}

// Prints how many pairs there are, and of how many of them the test holds.
fn report<'a, I: Iterator<Item = &'a [u64]> + Drop, F: Fn(u64, u64) -> bool>(
    rt: &impl Print,
    name: &str,
    pairs: I,
    agrees: F,
) -> io::Result<()>
    requires can { I.can_next pairs }
    requires ends { IsFinite (I.remaining pairs) }
    requires agrees { F.IsAlwaysCallable agrees }
{
    let mut right: u64 = 0;
    let mut of: u64 = 0;
    for pair in pairs {
        if let [given, expected] = pair {
            right = right.saturating_add(u64::from(agrees(*given, *expected)));
            of = of.saturating_add(1);
        }
    }
    println!(rt; "{name} {right} of {of}")
}

fn main(rt: HostRuntime) -> io::Result<()> {
    let narrows = |given: u64, expected: u64| {
        let given = f64_from_bits_with_nan(given);
        !given.is_nan() && narrow(given).to_bits() == low_half(expected)
    };
    report(&rt, "narrow", vectors::NARROW.chunks_exact(2), narrows)?;
    let clamps = |given: u64, expected: u64| {
        clamp_log(f64_from_bits_with_nan(given)).to_bits() == low_half(expected)
    };
    report(&rt, "clamp_log", vectors::CLAMP.chunks_exact(2), clamps)?;
    let widens = |given: u64, expected: u64| widen(f32_of(given)).to_bits() == expected;
    report(&rt, "widen", vectors::WIDEN.chunks_exact(2), widens)?;
    let rises = |lower: u64, higher: u64| total_key(f32_of(lower)) < total_key(f32_of(higher));
    report(&rt, "order", vectors::ORDER.windows(2), rises)
}
