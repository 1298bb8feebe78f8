// Samples and the bytes of a cf32 file: two f32 to a sample, real part first, each with its lowest byte first.
#![tactic(auto)]

ghost use Rattle.std.specs.Prelude.{◌≡◌, ◌+◌, ◌*◌, ◌/◌, ◌≤◌, min, length};
ghost use Rattle.cf32.specs.Bytes.{word_at, float_of, pattern_of, read_into, write_over};

use std::num::{f32_from_bits_with_nan, f32_to_bits_with_nan};

// The word at place i of the bytes.
#[tactic(auto, using(crate::proofs::Passes::chunk_is))]
fn word_at(b: &[u8], i: usize) -> u32
    requires { 4 * i + 4 ≤ length b.now }
    ensures { result ≡ word_at b.now i }
{
    let (words, _) = b.as_chunks::<4>();
    u32::from_le_bytes(words[i])
}

// The float of a pattern; every NaN is taken alike.
fn float(w: u32) -> f32
    ensures { result ≡ float_of w }
{
    f32_from_bits_with_nan(w)
}

// The pattern of a float; every NaN is written alike.
fn pattern(x: f32) -> u32
    ensures { result ≡ pattern_of x }
{
    f32_to_bits_with_nan(x)
}

// How many floats the bytes make, as far as there is room.
fn common(bytes: usize, room: usize) -> usize
    ensures { result ≡ min (bytes / 4) room }
{
    (bytes / 4).min(room)
}

// The floats of the bytes, as far as both go; the rest of x stays. A place for each, since nothing is known of x after a `zip` of its `iter_mut`.
#[tactic(auto, using(crate::proofs::Passes::reading))]
pub fn floats(b: &[u8], x: &mut [f32])
    ensures { x.new ≡ read_into b.now x.old }
{
    let n = common(b.len(), x.len());
    for (i, v) in x[..n].iter_mut().enumerate() {
        *v = float(word_at(b, i));
    }
}

// The bytes of the floats, as far as both go; the rest of b stays. A place for each, since nothing is known of b after its `as_chunks_mut`.
#[tactic(auto, using(crate::proofs::Passes::writing))]
pub fn bytes(x: &[f32], b: &mut [u8])
    ensures { b.new ≡ write_over x.now b.old }
{
    let n = common(b.len(), x.len());
    for (k, v) in x[..n].iter().enumerate() {
        let w = pattern(*v);
        b[4 * k..4 * k + 4].copy_from_slice(&w.to_le_bytes());
    }
}
