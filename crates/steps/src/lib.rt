// One sample after its filter sum: tracker, decision, error, update, what the sample gives, and a weight after the update.
#![tactic(auto)]

ghost use Rattle.std.specs.Prelude.{◌≡◌, true, ◌+◌, ◌%◌, ◌^◌};
ghost use Rattle.types.specs.Bits.{one32};
ghost use Rattle.types.specs.declared.Mark.TheVariants.{Heard};
ghost use Rattle.definition.specs.Floats.{norm, scaled_c, clip_c};
ghost use Rattle.definition.specs.Phase.{phase_step};
ghost use Rattle.definition.specs.Sample.{mse_after, godard_error, no_number, phase_error, mu_of, step_size};
ghost use Rattle.definition.specs.Rules.{rule_r4};
ghost use Rattle.steps.specs.Step.{track_of, aimed, update_if, live_told, step_with, step_of, running_of, with_track, heard_of, unheard_of, sampled_of};
ghost use Rattle.steps.specs.Weight.{lane_re, lane_im};

use types::{C32, CosSin, Decided, EqMode, EqualizeState, Mark, Update};

// The part of the mean error that a sample renews.
const MSE_ALPHA: f32 = 0.01;

// The limit of each part of the error in Cma.
const CMA_CLIP: f32 = 1.0;

// The running numbers that a heard sample changes. Apart from the record: steps 4 to 7 hand these three back, and so cannot change settings, gains, mode or
// count.
#[derive(Clone, Copy)]
pub struct Track {
    pub mse: f32,
    pub freq: f32,
    pub phase: u32,
}

// What is told of a sample beside its symbol: the mark, and the number of the point that it decides to.
#[derive(Clone, Copy)]
pub struct Told {
    pub mark: Mark,
    pub number: u8,
}

// What steps 4 to 7 give.
#[derive(Clone, Copy)]
pub struct Stepped {
    pub track: Track,
    pub z: C32,
    pub fed: C32,
    pub update: Update,
    pub told: Told,
}

// What step 8 starts from, beside the weights.
#[derive(Clone, Copy)]
pub struct Stage {
    pub track: Track,
    pub out: C32,
    pub fed: C32,
    pub told: Told,
}

// What a sample gives, and the record after it. Symbol, mark and number go apart at once, into output, marks and numbers.
#[derive(Clone, Copy)]
pub struct Sampled {
    pub state: EqualizeState,
    pub out: C32,
    pub told: Told,
}

// The running numbers after a sample, and what is told of its symbol.
#[derive(Clone, Copy)]
struct Marked {
    track: Track,
    told: Told,
}

// The error of the mode, and the sample to feed back.
#[derive(Clone, Copy)]
pub struct Aim {
    pub e: C32,
    pub fed: C32,
}

impl Told {
    // Of a sample with the mark 0.
    fn heard(number: u8) -> Told
        ensures { result ≡ record { mark = Heard; number = number } }
    {
        Told {
            mark: Mark::Heard,
            number,
        }
    }

    // Of a sample with another mark.
    fn unheard(mark: Mark) -> Told
        ensures { result ≡ record { mark = mark; number = no_number } }
    {
        Told {
            mark,
            number: Decided::NO_NUMBER,
        }
    }
}

// The running numbers of a record.
impl From<EqualizeState> for Track {
    ghost from_gives = { λ s t. t ≡ running_of s };

    fn from(s: EqualizeState) -> Track {
        Track {
            mse: s.mse,
            freq: s.freq,
            phase: s.phase,
        }
    }
}

impl Track {
    // The record s with these running numbers.
    pub fn on(self, s: EqualizeState) -> EqualizeState
        ensures { result ≡ with_track s self }
    {
        EqualizeState {
            mse: self.mse,
            phase: self.phase,
            freq: self.freq,
            ..s
        }
    }
}

// What steps 4 to 7 gave, but for the update.
impl From<Stepped> for Stage {
    ghost from_gives = { λ r k. k ≡ heard_of r };

    fn from(r: Stepped) -> Stage {
        Stage {
            track: r.track,
            out: r.z,
            fed: r.fed,
            told: r.told,
        }
    }
}

impl Stage {
    // A sample without steps 4 to 7: zero is given and fed back, and no number moves.
    pub fn unheard(s: EqualizeState, mark: Mark) -> Stage
        ensures { result ≡ unheard_of s mark }
    {
        let zero = C32::ZERO;
        Stage {
            track: Track::from(s),
            out: zero,
            fed: zero,
            told: Told::unheard(mark),
        }
    }

    // What a sample with this stage gives, and the record s after it. It has two callers, and out of line a sample takes 2 ns longer.
    #[inline(always)]
    #[tactic(auto, unfolding(definition::specs::Rules::rule_r4))]
    pub fn sampled(self, s: EqualizeState) -> Sampled
        requires { rule_r4 s ≡ true }
        ensures { result ≡ sampled_of s self }
    {
        Sampled {
            state: record_mode::advance(self.track.on(s)),
            out: self.out,
            told: self.told,
        }
    }
}

// The mean error after an error e.
#[tactic(auto, unfolding(definition::specs::Sample::mse_after))]
fn mean(mse: f32, e: C32) -> f32
    ensures { result ≡ mse_after mse (norm e) }
{
    let p = complex::norm(e);
    if numeric::is_finite(p) {
        numeric::flush_denormal(mse + MSE_ALPHA * (p - mse))
    } else {
        mse
    }
}

// The running numbers after the detector value p.
#[tactic(auto, unfolding(crate::specs::Step::track_of, definition::specs::Sample::freq_after, definition::specs::Sample::phase_after))]
fn turned(s: EqualizeState, mse: f32, p: f32) -> Track
    ensures { result ≡ track_of s mse p }
{
    let freq = costas::integrate(s.freq + s.ki * p, EqualizeState::PHASE_MAX_FREQ);
    let turn = costas_step::phase_step_f32(freq + s.kp * p);
    Track {
        mse,
        freq,
        phase: s.phase.wrapping_add(turn),
    }
}

// What is told of a symbol that decides to the point with this number, where the forward window is not silent.
#[tactic(auto, unfolding(crate::specs::Step::live_told, crate::specs::Step::live_mark, definition::specs::Sample::numbered))]
fn told_of(z: C32, number: u8) -> Told
    ensures { result ≡ live_told z number }
{
    if numeric::finite_c(z) {
        Told::heard(number)
    } else {
        Told::unheard(Mark::OffScale)
    }
}

// The running numbers after the symbol z with the decision d, e apart, and what is told of z, with d's number. A detector value that is not finite counts as 0; where it is
// finite, z is. Two calls: where p is chosen before one call, the next sample waits for the choice, 3 ns. Out of line a sample takes 3 ns longer.
#[inline(always)]
#[tactic(auto, unfolding(definition::specs::Sample::phase_error), using(crate::proofs::OnScale::told_is))]
fn tracked(s: EqualizeState, z: C32, d: C32, number: u8, e: C32) -> Marked
    ensures track { result.track ≡ track_of s (mse_after s.mse (norm e)) (phase_error z d) }
    ensures told { result.told ≡ live_told z number }
{
    let p = complex::times_conj(z, d).im;
    let mse = mean(s.mse, e);
    if numeric::is_finite(p) {
        Marked {
            track: turned(s, mse, p),
            told: Told::heard(number),
        }
    } else {
        Marked {
            track: turned(s, mse, 0.0),
            told: told_of(z, number),
        }
    }
}

// Godard's constant modulus error, clipped.
#[tactic(auto, unfolding(definition::specs::Floats::clip_c, definition::specs::Sample::godard_error))]
fn modulus(y: C32, radius: f32) -> C32
    ensures { result ≡ clip_c (godard_error y radius) one32 }
{
    let f = complex::norm(y) - radius;
    y.map(|v| numeric::clip(v * f, CMA_CLIP))
}

// The error and the sample to feed back, by the mode.
#[tactic(auto, unfolding(crate::specs::Step::aimed, definition::specs::Sample::error_of, definition::specs::Sample::fed_of))]
fn aim_of(s: EqualizeState, t: CosSin, y: C32, d: C32, e: C32) -> Aim
    ensures { result ≡ aimed s.mode s.params.constellation t y d e }
{
    match s.mode {
        EqMode::Cma => Aim {
            e: modulus(y, constellation::cma_r2(s.params.constellation)),
            fed: C32::ZERO,
        },
        EqMode::Decision => Aim {
            e: costas::rotate(e, t),
            fed: costas::rotate(d, t),
        },
    }
}

// The update by the step size m and the error e, or none.
#[tactic(auto, unfolding(crate::specs::Step::update_if, definition::specs::Floats::scaled_c))]
fn update_of(e: C32, m: f32) -> Update
    ensures { result ≡ update_if true (scaled_c m e) }
{
    let g = e.map(|v| m * v);
    if numeric::finite_c(g) {
        Update::Step(g.re, g.im)
    } else {
        Update::Hold
    }
}

// Steps 4 to 7 with c and s, by the sum y, the forward power and the step size m. Where the forward window is silent, nothing adapts, and (0, 0) is fed
// back. It has two callers, and out of line a sample of a run takes 3 to 5 ns longer.
#[inline(always)]
#[tactic(auto, using(crate::proofs::Exits::step_live, crate::proofs::Exits::step_silent))]
pub fn step(s: EqualizeState, t: CosSin, y: C32, forward: f32, m: f32) -> Stepped
    ensures { result ≡ step_with s t y forward m }
{
    let z = costas::derotate(y, t);
    let Decided { point: d, number } = constellation::decide(s.params.constellation, z);
    let e = z - d;
    let a = aim_of(s, t, y, d, e);
    let Marked { track, told } = tracked(s, z, d, number as u8, e);
    if forward == 0.0 {
        let fed = C32::ZERO;
        Stepped {
            track,
            z,
            fed,
            update: Update::Hold,
            told: Told::unheard(Mark::Silent),
        }
    } else {
        Stepped {
            track,
            z,
            fed: a.fed,
            update: update_of(a.e, m),
            told,
        }
    }
}

// Steps 4 to 7 of a record: with cosine and sine of its phase.
#[tactic(auto, unfolding(crate::specs::Step::step_of))]
pub fn follow(s: EqualizeState, y: C32, forward: f32, size: f32) -> Stepped
    ensures { result ≡ step_of s y forward size }
{
    step(s, mix::interp_f32_pair(s.phase), y, forward, size)
}

// The step size of the mode, before the window power.
fn mu_of(s: EqualizeState) -> f32
    ensures { result ≡ mu_of s.mode s.params }
{
    match s.mode {
        EqMode::Cma => s.params.mu_cma,
        EqMode::Decision => s.params.mu_dd,
    }
}

// A step size over the window power.
#[tactic(auto, unfolding(definition::specs::Sample::step_size))]
pub fn step_size(mu: f32, power: f32) -> f32
    ensures { result ≡ step_size mu power }
{
    mu / (power + EqualizeState::NLMS_EPS)
}

// The step size by the mode and the window power. No method: the record's type is of another crate.
pub fn size_of(s: EqualizeState, power: f32) -> f32
    ensures { result ≡ step_size (mu_of s.mode s.params) power }
{
    step_size(mu_of(s), power)
}

// The weight w after a step by g·conj(x), +0 in a part below a limit.
#[tactic(auto, unfolding(crate::specs::Weight::lane_re, crate::specs::Weight::lane_im))]
pub fn weight(w: C32, limit: f32, x: C32, g: C32) -> C32
    ensures re { result.re ≡ lane_re w.re limit x.re x.im g.re g.im }
    ensures im { result.im ≡ lane_im w.im limit x.re x.im g.re g.im }
{
    let v = w - complex::times_conj(g, x);
    v.map(|p| numeric::flush_below(p, limit))
}
