// Floats: the Rust's num.rs, its clip, and the narrowing of an f64 on the bits.
#![tactic(auto)]

ghost use Rattle.std.specs.Prelude.{◌≡◌, cond, ◌&&◌, ◌+◌, ◌^◌, ◌≤◌, ◌<◌, leb};
ghost use Rattle.std.specs.Float.{binary32};
ghost use Rattle.std.specs.Float.Ieee.{lt, neg, of_bits};
ghost use Rattle.types.specs.Bits.{zero32};
ghost use Rattle.std.specs.Float.Ieee.Nearest.{closest};
ghost use Rattle.std.specs.Float.Ieee.Scale.{finite};
ghost use Rattle.definition.specs.Sample.{sanitized};
ghost use Rattle.definition.specs.Floats.{flush, clip as clipDef, narrow as narrowDef, finite_c};
ghost use Rattle.numeric.specs.Below.{kept_of};

use std::cmp::Ordering;
use types::C32;

// A value below this magnitude is flushed to +0.
pub const TINY: f32 = 1e-30;

// Whether x is neither a NaN nor an infinity.
#[tactic(auto, using(crate::proofs::Leaves::is_finite_lem))]
pub fn is_finite(x: f32) -> bool
    ensures { result ≡ finite x }
{
    x.is_finite()
}

// Whether both parts are finite.
#[tactic(auto, unfolding(definition::specs::Floats::finite_c))]
pub fn finite_c(v: C32) -> bool
    ensures { result ≡ finite_c v }
{
    is_finite(v.re) & is_finite(v.im)
}

// What a window stores of v: zero where a part is not finite.
#[tactic(auto, unfolding(definition::specs::Sample::sanitized))]
pub fn sanitize(v: C32) -> C32
    ensures { result ≡ sanitized v }
{
    if finite_c(v) { v } else { C32::ZERO }
}

// +0 where |x| is below a limit, else x. A NaN stays a NaN. Two tests: by `x.abs()` a flush and a clip, each feeding the next, took 8.0 ns and not 5.8.
#[tactic(auto, unfolding(crate::specs::Below::kept_of))]
pub fn flush_below(x: f32, limit: f32) -> f32
    ensures { result ≡ kept_of x limit }
{
    if (x < limit) & (x > -limit) { 0.0 } else { x }
}

// +0 where |x| is below 1e-30, else x.
#[tactic(auto, using(crate::proofs::Leaves::kept_tiny))]
pub fn flush_denormal(x: f32) -> f32
    ensures { result ≡ flush x }
{
    flush_below(x, TINY)
}

// v held to -limit .. limit. A NaN stays a NaN. Not `clamp`, which asks for a limit that is no NaN and not negative: this holds for any.
#[tactic(auto, unfolding(definition::specs::Floats::clip))]
pub fn clip(v: f32, limit: f32) -> f32
    ensures { result ≡ clipDef v limit }
{
    if v > limit {
        limit
    } else if v < -limit {
        -limit
    } else {
        v
    }
}

// g / 2^d to the nearest whole number, a tie to the even one.
#[tactic(auto, using(crate::proofs::Digits::down, crate::proofs::Digits::up, crate::proofs::Digits::tie))]
fn nearest(g: u64, d: u64) -> u64
    requires { (1 ≤ d) × (d < 64) }
    ensures { result ≡ closest g (2 ^ d) }
{
    let q = g >> d;
    let r = g & ((1u64 << d) - 1);
    let half = 1u64 << (d - 1);
    match r.cmp(&half) {
        Ordering::Less => q,
        Ordering::Equal => q + (q & 1),
        Ordering::Greater => q + 1,
    }
}

// The f32 with the bits p, and the sign of the f64 with the bits `bits`: on the bits, as the specification has `narrow`.
#[tactic(auto, using(crate::proofs::Digits::plain_ok, crate::proofs::Digits::signed_ok))]
fn with_sign(bits: u64, p: u64) -> f32
    requires { p ≤ 0x7f80_0000 }
    ensures { result ≡ of_bits binary32 (cond (leb (2 ^ 63) bits) (2 ^ 31) 0 + p) }
{
    if bits < 0x8000_0000_0000_0000 {
        f32::from_bits(p as u32)
    } else {
        f32::from_bits((p | 0x8000_0000) as u32)
    }
}

// x as the nearest f32, ties to even, worked out on the bits. x is g * 2^(e - 1075). From e = 897 on the result is normal and 29 digits go;
// the leading one of the 24 that stay adds one to the exponent field, and a carry runs on into the field, at most to the infinity.
// Below, the result is subnormal, or zero, in units of 2^-149. The specification names this form, in place of the library's rounding.
pub fn narrow(x: f64) -> f32
    ensures { result ≡ narrowDef x }
{
    if x.is_nan() {
        return f32::NAN;
    }
    let bits = x.to_bits();
    let e = (bits >> 52) & 0x7ff;
    let g = (bits & 0xf_ffff_ffff_ffff) | 0x10_0000_0000_0000;
    let p = match e {
        0..=871 => 0,
        872..=896 => nearest(g, 926 - e),
        897..=1150 => ((e - 897) << 23) + nearest(g, 29),
        _ => 0x7f80_0000,
    };
    with_sign(bits, p)
}
