// The types of the equalizer, with the Rust's names, its constants and the readers of the record. What each operation returns and leaves is
// defined in the crate definition, from document 01.
#![tactic(auto)]

mod numbers;
mod words;

ghost use Rattle.std.specs.Prelude.{◌≡◌, ◌-◌, ◌/◌, length};
ghost use Rattle.std.specs.Float.{binary32};
ghost use Rattle.std.specs.Float.Ieee.{add, mul, sub};
ghost use Rattle.types.specs.Bits.{f32 as f32Of, f64 as f64Of};
ghost use Rattle.types.specs.Start.{start_mode, start_state};

pub use numbers::{Lengths, UnknownNumber};
use std::ops::{Mul, Sub};
pub use words::UnknownWord;

// A complex sample: two f32, real part first.
#[repr(C)]
#[derive(Clone, Copy)]
pub struct C32 {
    pub re: f32,
    pub im: f32,
}

// By parts.
impl Sub for C32 {
    type Output = C32;

    ghost sub_gives = { λ a b c. c ≡ record { re = sub binary32 a.re b.re; im = sub binary32 a.im b.im } };

    fn sub(self, b: C32) -> C32 {
        C32 {
            re: self.re - b.re,
            im: self.im - b.im,
        }
    }
}

// The complex product.
impl Mul for C32 {
    type Output = C32;

    ghost mul_gives = { λ a b c. c ≡ record {
      re = sub binary32 (mul binary32 a.re b.re) (mul binary32 a.im b.im);
      im = add binary32 (mul binary32 a.re b.im) (mul binary32 a.im b.re);
    } };

    fn mul(self, b: C32) -> C32 {
        C32 {
            re: self.re * b.re - self.im * b.im,
            im: self.re * b.im + self.im * b.re,
        }
    }
}

// Cosine and sine of a phase.
#[repr(C)]
#[derive(Clone, Copy)]
pub struct CosSin {
    pub c: f32,
    pub s: f32,
}

// The gains of the phase tracker.
#[repr(C)]
#[derive(Clone, Copy)]
pub struct LoopGains {
    pub kp: f32,
    pub ki: f32,
}

// A square QAM constellation.
#[derive(Clone, Copy, Debug, PartialEq, Eq)]
pub enum Qam {
    Qam16,
    Qam64,
}

// The adaptation mode: blind by the constant modulus, or against the nearest point.
#[derive(Clone, Copy, Debug, PartialEq, Eq)]
pub enum EqMode {
    Cma,
    Decision,
}

#[derive(Clone, Copy, Debug, PartialEq, Eq)]
pub enum EqConstellation {
    Bpsk,
    Qpsk,
    Psk8,
    Qam16,
    Qam64,
}

// The settings: the widest fields first, so that a copy has no padding to carry.
#[derive(Clone, Copy)]
pub struct EqParams {
    pub phase_bw: f64,
    pub feedback_taps: usize,
    pub mu_cma: f32,
    pub mu_dd: f32,
    pub cma_symbols: u32,
    pub constellation: EqConstellation,
}

// The record: the settings and the running floats. Weights and window are lent beside it.
#[derive(Clone, Copy)]
pub struct EqualizeState {
    pub params: EqParams,
    pub kp: f32,
    pub ki: f32,
    pub mode: EqMode,
    pub count: u32,
    pub mse: f32,
    pub phase: u32,
    pub freq: f32,
}

// Refusals 1 to 10 and 13, in this order. Lengths are in complex samples, of marks in bytes.
#[derive(Clone, Copy, Debug, PartialEq, Eq)]
pub enum Error {
    Odd,
    Feedback,
    Taps,
    Window { expected: usize, got: usize },
    MuCma,
    MuDd,
    Bandwidth,
    Record,
    Output { expected: usize, got: usize },
    Marks { expected: usize, got: usize },
    Numbers,
}

// What equalizing, reset and the setters return: the record, and whether the call was served. The record comes back from a refusal too, as it was:
// so this is no `Result` of a record.
#[derive(Clone, Copy)]
pub struct Equalized {
    pub state: EqualizeState,
    pub outcome: Result<(), Error>,
}

// What a sample was: the first of blank, spilled, silent, off scale that it is, or else heard. Blank: it is not finite. Spilled: its filter sum y is not.
// Silent: the forward power F is 0. Off scale: its symbol has a part that is not finite.
#[derive(Clone, Copy, Debug, PartialEq, Eq)]
pub enum Mark {
    Heard,
    Blank,
    Spilled,
    Silent,
    OffScale,
}

// A decision: the point of the constellation, and its number.
#[derive(Clone, Copy)]
pub struct Decided {
    pub point: C32,
    pub number: u32,
}

// The update of the weights: a step with two floats, or none. The specification names this form, in place of an `Option`.
#[derive(Clone, Copy)]
pub enum Update {
    Step(f32, f32),
    Hold,
}

impl Equalized {
    // The answer of a call that was served.
    pub fn served(state: EqualizeState) -> Equalized
        ensures { result ≡ record { state = state; outcome = Ok tt } }
    {
        Equalized {
            state,
            outcome: Ok(()),
        }
    }

    // The answer of a call that was refused: the record as it was.
    pub fn refused(state: EqualizeState, error: Error) -> Equalized
        ensures { result ≡ record { state = state; outcome = Err error } }
    {
        Equalized {
            state,
            outcome: Err(error),
        }
    }
}

impl C32 {
    pub const ZERO: C32 = C32 { re: 0.0, im: 0.0 };

    // Both parts by f.
    pub fn map<F: Fn(f32) -> f32>(self, f: F) -> C32
        requires { F.IsAlwaysCallable f }
        ensures { F.post f self.re result.re × F.post f self.im result.im }
    {
        C32 {
            re: f(self.re),
            im: f(self.im),
        }
    }
}

impl Decided {
    // What stands in the place of a number where the mark is not 0.
    pub const NO_NUMBER: u8 = 255;
}

impl EqParams {
    // The cma_symbols of a mode that never switches: by the specification the count and its absence are one number.
    pub const NEVER_SWITCH: u32 = u32::MAX;
}

impl Default for EqParams {
    // QPSK, no feedback, mu_cma 0.05, mu_dd 0.02, 1000 symbols in Cma, bandwidth 0.02.
    fn default() -> EqParams
        ensures { result ≡ record { constellation = EqConstellation.Qpsk; feedback_taps = 0; mu_cma = f32Of 0x3d4c_cccd; mu_dd = f32Of 0x3ca3_d70a; cma_symbols = 1000; phase_bw = f64Of 0x3f94_7ae1_47ae_147b } }
    {
        EqParams {
            constellation: EqConstellation::Qpsk,
            feedback_taps: 0,
            mu_cma: 0.05,
            mu_dd: 0.02,
            cma_symbols: 1000,
            phase_bw: 0.02,
        }
    }
}

// The mode at the start: Decision where cma_symbols is 0.
#[tactic(auto, unfolding(crate::specs::Start::start_mode))]
fn start_mode(cma_symbols: u32) -> EqMode
    ensures { result ≡ start_mode cma_symbols }
{
    if cma_symbols == 0 {
        EqMode::Decision
    } else {
        EqMode::Cma
    }
}

impl EqualizeState {
    // The limit of the frequency, in turns per sample.
    pub const PHASE_MAX_FREQ: f32 = 0.125;
    // The mean error at the start.
    pub const MSE_START: f32 = 1.0;
    // What the step size adds to the window power.
    pub const NLMS_EPS: f32 = 0.000001;

    // The record at the start: count 0, mse 1, phase and frequency 0.
    #[tactic(auto, unfolding(crate::specs::Start::start_state))]
    pub fn fresh(params: EqParams, gains: LoopGains) -> EqualizeState
        ensures { result ≡ start_state params gains.kp gains.ki }
    {
        EqualizeState {
            params,
            kp: gains.kp,
            ki: gains.ki,
            mode: start_mode(params.cma_symbols),
            count: 0,
            mse: EqualizeState::MSE_START,
            phase: 0,
            freq: 0.0,
        }
    }

    // The readers are the Rust's, whether this library calls one or not.

    pub fn mode(self) -> EqMode
        ensures { result ≡ self.mode }
    {
        self.mode
    }

    pub fn mse(self) -> f32
        ensures { result ≡ self.mse }
    {
        self.mse
    }

    // The forward taps, beside weights of this length.
    pub fn taps(self, weights: &[f32]) -> usize
        ensures { result ≡ length weights.now / 2 - self.params.feedback_taps }
    {
        (weights.len() / 2).saturating_sub(self.params.feedback_taps)
    }

    pub fn feedback_taps(self) -> usize
        ensures { result ≡ self.params.feedback_taps }
    {
        self.params.feedback_taps
    }

    pub fn params(self) -> EqParams
        ensures { result ≡ self.params }
    {
        self.params
    }

    pub fn constellation(self) -> EqConstellation
        ensures { result ≡ self.params.constellation }
    {
        self.params.constellation
    }

    pub fn mu_cma(self) -> f32
        ensures { result ≡ self.params.mu_cma }
    {
        self.params.mu_cma
    }

    pub fn mu_dd(self) -> f32
        ensures { result ≡ self.params.mu_dd }
    {
        self.params.mu_dd
    }

    pub fn cma_symbols(self) -> u32
        ensures { result ≡ self.params.cma_symbols }
    {
        self.params.cma_symbols
    }

    // In 2^32nds of a turn.
    pub fn phase(self) -> u32
        ensures { result ≡ self.phase }
    {
        self.phase
    }

    // In turns per sample.
    pub fn frequency(self) -> f32
        ensures { result ≡ self.freq }
    {
        self.freq
    }

    pub fn phase_gains(self) -> LoopGains
        ensures { result ≡ record { kp = self.kp; ki = self.ki } }
    {
        LoopGains {
            kp: self.kp,
            ki: self.ki,
        }
    }
}
