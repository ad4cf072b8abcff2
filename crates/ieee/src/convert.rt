// f64 and f32, after `clamp_log` of tonekit-decode's lib.rs, Rust's `f64::from` and its `as f32`. Narrowing works on IEEE bits, as
// document 01 has it, and not by std's `nearest_f64_to_f32`.

ghost use Rattle.std.specs.Prelude.{◌≡◌, ◌^◌, ◌<◌, ◌≤◌, not, T, from_bits, is_nan, to_bits};
ghost use Rattle.std.specs.Float.{binary32, binary64};
ghost use Rattle.std.specs.Float.Ieee.Nearest.{closest};
ghost use Rattle.ieee.specs.Convert.{narrowed, clamped};
ghost use Rattle.ieee.specs.Inner.Conversions.{Narrowed, ClampedLog};

use crate::sign::{SIGN_32, SIGN_64};

// The weight of the leading digit, which a pattern does not write, and of the exponent's field.
const LEADING_64: u64 = 0x0010_0000_0000_0000;

const LEADING_32: u64 = 0x0080_0000;

const INFINITY_32: u64 = 0x7f80_0000;

// How many digits an f64 has more than an f32.
const DROPPED: u64 = 29;

// An f64 with a lower exponent's field is under half of the smallest f32.
const SUBNORMAL: u64 = 873;

// The field in the smallest normal f32, as an f64.
const NORMAL: u64 = 897;

// The field from which an f64 is out of f32's range.
const INFINITE: u64 = 1151;

const LOG_CLAMP: f64 = 1_000_000.0;

// The same value as an f64, which holds every f32.
pub fn widen(x: f32) -> f64
    ensures { result ≡ x }
{
    std::num::f32_to_f64_with_nan(x)
}

// m / 2^by to the nearest whole number, a tie to the even one.
fn nearest_even(m: u64, by: u64) -> u64
    requires { (0 < by) × (by < 64) }
    ensures { result ≡ closest m (2 ^ by) }
{
    let unit = 1u64 << by;
    let quotient = m >> by;
    let twice = (m & (unit - 1)) * 2;
    if twice < unit {
        quotient
    } else if twice == unit {
        quotient + quotient % 2
    } else {
        quotient + 1
    }
}

// The pattern of an f64 with no sign, narrowed. A carry out of the digits goes into the exponent's field.
fn narrow_magnitude(m: u64) -> u64
    requires { m ≤ 0x7ff0_0000_0000_0000 }
    ensures { result ≡ to_bits binary32 (narrowed (from_bits binary64 m)) }
{
    let exponent = m / LEADING_64;
    let significand = LEADING_64 + m % LEADING_64;
    if exponent < SUBNORMAL {
        0
    } else if exponent < NORMAL {
        nearest_even(significand, DROPPED + (NORMAL - exponent))
    } else if exponent < INFINITE {
        (exponent - NORMAL) * LEADING_32 + nearest_even(significand, DROPPED)
    } else {
        INFINITY_32
    }
}

// The f32 nearest to x, a tie to the even one: Rust's `x as f32`.
pub fn narrow(x: f64) -> f32
    requires { T (not (is_nan x)) }
    ensures { Narrowed x result }
{
    let bits = f64::to_bits(x);
    let pattern = bits / SIGN_64 * (SIGN_32 as u64) + narrow_magnitude(bits % SIGN_64);
    f32::from_bits(pattern as u32)
}

// v clamped to ±1,000,000; a NaN, which no sum here is, reads as the lower bound.
fn clamp(v: f64) -> f64
    ensures { result ≡ clamped v }
{
    if v.is_nan() {
        -LOG_CLAMP
    } else {
        v.clamp(-LOG_CLAMP, LOG_CLAMP)
    }
}

// v clamped, as an f32.
pub fn clamp_log(v: f64) -> f32
    ensures { ClampedLog v result }
{
    narrow(clamp(v))
}
