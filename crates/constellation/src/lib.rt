// The constellations: the decision of each, point and number together, and Godard's R2.
#![tactic(auto)]

ghost use Rattle.std.specs.Prelude.{◌≡◌, ◌<◌};
ghost use Rattle.std.specs.Float.Ieee.{lt};
ghost use Rattle.types.specs.Bits.{zero32};
ghost use Rattle.definition.specs.Points.{side as sideDef, digit as digitDef, decided, radius};

pub use constellation_qam::decide_symbol;
use types::{C32, Decided, EqConstellation, Qam};

// Each part of the QPSK points, 1 / sqrt(2).
const QPSK_A: f32 = 0.70710677;

const QAM16_R2: f32 = 1.32;

const QAM64_R2: f32 = 1.3809524;

// a with the sign of v; -0 and a NaN count as positive.
#[tactic(auto, unfolding(definition::specs::Points::side))]
fn side(v: f32, a: f32) -> f32
    ensures { result ≡ sideDef v a }
{
    if v < 0.0 { -a } else { a }
}

// 1 where v is below zero.
fn digit(v: f32) -> u32
    ensures value { result ≡ digitDef (lt v zero32) }
    ensures below { result < 2 }
{
    u32::from(v < 0.0)
}

// The decision: the point of the constellation nearest to y, and its number.
#[tactic(auto, unfolding(definition::specs::Points::decided, definition::specs::Points::decide, definition::specs::Points::number_of))]
pub fn decide(k: EqConstellation, y: C32) -> Decided
    ensures value { result ≡ decided k y }
    ensures below { result.number < 64 }
{
    match k {
        EqConstellation::Bpsk => Decided {
            point: C32 {
                re: side(y.re, 1.0),
                im: 0.0,
            },
            number: digit(y.re),
        },
        EqConstellation::Qpsk => Decided {
            point: y.map(|v| side(v, QPSK_A)),
            number: 2 * digit(y.re) + digit(y.im),
        },
        EqConstellation::Psk8 => costas::octant_point(y),
        EqConstellation::Qam16 => constellation_qam::decide_qam(Qam::Qam16, y),
        EqConstellation::Qam64 => constellation_qam::decide_qam(Qam::Qam64, y),
    }
}

// Godard's R2, the radius of the constant modulus: E|a|^4 / E|a|^2 over points of mean power 1.
#[tactic(auto, using(crate::proofs::Radius::one_is, crate::proofs::Radius::qam16_is, crate::proofs::Radius::qam64_is))]
pub fn cma_r2(k: EqConstellation) -> f32
    ensures { result ≡ radius k }
{
    match k {
        EqConstellation::Bpsk | EqConstellation::Qpsk | EqConstellation::Psk8 => 1.0,
        EqConstellation::Qam16 => QAM16_R2,
        EqConstellation::Qam64 => QAM64_R2,
    }
}
