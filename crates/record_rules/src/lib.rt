// The record check: rules R1 to R4.
#![tactic(auto)]

ghost use Rattle.std.specs.Prelude.{◌≡◌, ◌-◌};
ghost use Rattle.std.specs.Float.Ieee.Scale.{finite};
ghost use Rattle.definition.specs.Slices.{every};
ghost use Rattle.definition.specs.Packed.{equalizer};
ghost use Rattle.definition.specs.Rules.{same_bits, taps_fit, feedback_fits, mu_fits, bw_fits, plus_zero, rule_r1, rule_r2, weight_fits, freq_fits, rule_r3, rule_r4, rules as rulesDef};

use std::num::f32_to_bits_with_nan;
use types::{EqMode, EqParams, EqualizeState};

// The same by bits, any two NaNs being the same.
#[tactic(auto, unfolding(definition::specs::Rules::same_bits))]
fn same_bits(x: f32, y: f32) -> bool
    ensures { result ≡ same_bits x y }
{
    f32_to_bits_with_nan(x) == f32_to_bits_with_nan(y)
}

// At most 63.
#[tactic(auto, unfolding(definition::specs::Rules::feedback_fits))]
pub fn feedback_fits(m: usize) -> bool
    ensures { result ≡ feedback_fits m }
{
    m <= 63
}

// An odd number from 3 to 63.
#[tactic(auto, unfolding(definition::specs::Rules::taps_fit), using(numeric::proofs::Ranges::in_nats))]
pub fn taps_fit(n: usize) -> bool
    ensures { result ≡ taps_fit n }
{
    (n % 2 == 1) & (3..=63).contains(&n)
}

// From 0.00001 to 1. The ranges stand here and not in constants: a constant's value may call no function of std, and a range is one.
#[tactic(auto, unfolding(definition::specs::Rules::mu_fits), using(numeric::proofs::Ranges::in_floats))]
pub fn check_mu(mu: f32) -> bool
    ensures { result ≡ mu_fits mu }
{
    (0.00001..=1.0).contains(&mu)
}

// 0 of either sign, or 0.0001 to 0.2.
#[tactic(auto, unfolding(definition::specs::Rules::bw_fits), using(numeric::proofs::Ranges::in_floats))]
pub fn bw_fits(bw: f64) -> bool
    ensures { result ≡ bw_fits bw }
{
    (bw == 0.0) | (0.0001..=0.2).contains(&bw)
}

// +0.
#[tactic(auto, unfolding(definition::specs::Rules::plus_zero))]
fn plus_zero(v: f32) -> bool
    ensures { result ≡ plus_zero v }
{
    f32_to_bits_with_nan(v) == 0
}

// +0, or finite and at least 1e-30 in magnitude. By the bits, which rise with the magnitude once the sign is off, an infinity's and a NaN's above all others: by `is_finite` and `abs` a part took 1.9 ns and not 1.0.
#[tactic(auto, using(crate::proofs::Weights::fits_in))]
fn weight_fits(v: f32) -> bool
    ensures { result ≡ weight_fits v }
{
    let magnitude = f32_to_bits_with_nan(v) & 0x7fff_ffff;
    plus_zero(v) | (numeric::TINY.to_bits()..=f32::MAX.to_bits()).contains(&magnitude)
}

// +0, or 1e-30 to 0.125 in magnitude.
#[tactic(auto, unfolding(definition::specs::Rules::freq_fits), using(numeric::proofs::Leaves::sign_abs, numeric::proofs::Ranges::in_floats))]
fn freq_fits(v: f32) -> bool
    ensures { result ≡ freq_fits v }
{
    let a = v.abs();
    plus_zero(v) | (numeric::TINY..=EqualizeState::PHASE_MAX_FREQ).contains(&a)
}

// R1: the taps, by the lengths of weights and window.
#[tactic(auto, unfolding(definition::specs::Rules::rule_r1))]
pub fn rule_r1(s: EqualizeState, w: &[f32], h: &[f32]) -> bool
    ensures { result ≡ rule_r1 (equalizer s w.now h.now) }
{
    feedback_fits(s.params.feedback_taps) & taps_fit(s.taps(w)) & (w.len() / 2 == h.len() / 2)
}

// R2: step sizes and bandwidth, and the gains, which are exactly those of the bandwidth.
#[tactic(auto, unfolding(definition::specs::Rules::rule_r2, definition::specs::Gains::loop_gains))]
pub fn rule_r2(s: EqualizeState) -> bool
    ensures { result ≡ rule_r2 s }
{
    let p = s.params;
    let g = costas::loop_gains(p.phase_bw, costas::PHASE_DAMPING);
    check_mu(p.mu_cma)
        & check_mu(p.mu_dd)
        & bw_fits(p.phase_bw)
        & same_bits(s.kp, g.kp)
        & same_bits(s.ki, g.ki)
}

// Whether every weight part fits: the record check's one walk over the weights, each part tested for both, finite and not tiny. `demands/specs/Weights` says by places where it says yes.
fn weights_fit(x: &[f32]) -> bool
    ensures { result ≡ every weight_fits x.now }
{
    x.iter().all(|v| weight_fits(*v))
}

// Whether every part is finite.
pub fn all_finite(x: &[f32]) -> bool
    ensures { result ≡ every finite x.now }
{
    x.iter().all(|v| numeric::is_finite(*v))
}

// R3: every weight and window part, and the frequency.
#[tactic(auto, unfolding(definition::specs::Rules::rule_r3))]
fn rule_r3(s: EqualizeState, w: &[f32], h: &[f32]) -> bool
    ensures { result ≡ rule_r3 (equalizer s w.now h.now) }
{
    weights_fit(w) & all_finite(h) & freq_fits(s.freq)
}

// R4: the count, by the mode.
#[tactic(auto, unfolding(definition::specs::Rules::rule_r4, definition::specs::Rules::count_fits))]
fn rule_r4(s: EqualizeState) -> bool
    ensures { result ≡ rule_r4 s }
{
    let total = s.params.cma_symbols;
    match s.mode {
        EqMode::Cma if total == EqParams::NEVER_SWITCH => s.count == 0,
        EqMode::Cma => s.count < total,
        EqMode::Decision => (total != EqParams::NEVER_SWITCH) & (s.count == total),
    }
}

// R1 to R4. R1 bounds both lengths, to 126 complex numbers, and is tried alone first: a longer slice is answered before a part of it is read. Test 1 has
// asked for whole numbers, so at most 252 parts each of weights and window are looked at.
#[tactic(auto, unfolding(definition::specs::Rules::rules))]
pub fn rules(s: EqualizeState, w: &[f32], h: &[f32]) -> bool
    ensures { result ≡ rulesDef (equalizer s w.now h.now) }
{
    rule_r1(s, w, h) && (rule_r2(s) & rule_r3(s, w, h) & rule_r4(s))
}
