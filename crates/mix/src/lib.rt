// Cosine and sine of a phase, by the table and the straight line between two entries, in f32 without FMA.
#![tactic(auto)]

ghost use Rattle.std.specs.Prelude.{◌≡◌, ◌<◌, ◌+◌, ◌%◌};
ghost use Rattle.definition.specs.Floats.{◌+f◌, ◌-f◌, ◌*f◌};
ghost use Rattle.definition.specs.Phase.{low_part, line_at, interp_pair, cos_sin};

use types::CosSin;

// The low 20 bits of the phase as a part of 1.
#[tactic(auto, unfolding(definition::specs::Phase::low_part))]
fn low_part(p: u32) -> f32
    ensures { result ≡ low_part p }
{
    (p & 0xf_ffff) as f32 * 0.00000095367431640625
}

// The table index of the sine, a quarter turn back.
fn sine_index(idx: usize) -> usize
    requires { idx < 4096 }
    ensures { result ≡ (idx + 3072) % 4096 }
{
    (idx + 3072) & 4095
}

// The straight line from a to b, at the part f of the way.
fn line(a: f32, b: f32, f: f32) -> f32
    ensures { result ≡ (b -f a) *f f +f a }
{
    (b - a) * f + a
}

// The straight line from entry k to the next.
#[tactic(auto, unfolding(definition::specs::Phase::line_at))]
fn line_at(k: usize, f: f32) -> f32
    requires { k < 4096 }
    ensures { result ≡ line_at k f }
{
    line(cosine::cos_f32(k), cosine::cos_f32(k + 1), f)
}

// (cos, sin) of the phase p: the fraction is worked out once, and the sine has the index (idx + 3072) mod 4096. These are c and s of step 4 too: at
// phase 0 the table gives (1, 0).
#[tactic(auto, unfolding(definition::specs::Phase::interp_pair), using(crate::proofs::Pair::cos_sin_is))]
pub fn interp_f32_pair(p: u32) -> CosSin
    ensures value { result ≡ interp_pair p }
    ensures value_2 { result ≡ cos_sin p }
{
    let idx = (p >> 20) as usize;
    let f = low_part(p);
    CosSin {
        c: line_at(idx, f),
        s: line_at(sine_index(idx), f),
    }
}
