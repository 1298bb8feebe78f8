// What a run needs before its first sample.
#![tactic(auto)]

ghost use Rattle.std.specs.Prelude.{◌≡◌, ◌+◌, ◌-◌, ◌≤◌, ◌%◌, length, get_or};
ghost use Rattle.std.specs.Float.{nan};
ghost use Rattle.definition.specs.Sample.{step_size};
ghost use Rattle.lanes.specs.Powers.{square_at, chain_of};
ghost use Rattle.lanes.specs.Between.{Between};
ghost use Rattle.lanes_prepare.specs.Entered.{Entered};
ghost use Rattle.dot.specs.Added.{Added};
ghost use Rattle.lanes_prepare.specs.Clock.{cma_left, StepSizes};

use lanes::{PLACES, RUN, Window};
use types::{EqMode, EqParams, EqualizeState};

// The powers of a run's forward windows and their step sizes, made ahead: the sample at `at` has those at `at`. No array of
// pairs: `powers` lends one array and reads none of the other, and `sizes` reads one and writes the other.
#[derive(Clone, Copy)]
pub struct Ahead {
    pub power: [f32; RUN],
    pub steps: [f32; RUN],
}

impl Ahead {
    pub const ZERO: Ahead = Ahead {
        power: [0.0; RUN],
        steps: [0.0; RUN],
    };
}

// The samples of a run into the window, newest first; a sample that is not finite as zero. By an index: it is a place in both parts of the values, from the end
// down, and a complex number of the input, so that a chain would have three iterators and a `rev` for one `put` and one `at`.
pub fn enter(h: &mut Window, input: &[f32])
    requires { length input.now ≤ 128 }
    ensures entered { Entered input.now h.old.values.re h.old.values.im h.new.values.re h.new.values.im }
    ensures squares { h.new.squares ≡ h.old.squares }
{
    for k in 0..input.len() / 2 {
        let x = numeric::sanitize(complex::at(input, k));
        h.values.put(RUN - 1 - k, x);
    }
}

// re² + im² of the window's values. By an index: it is a place in both parts of the values and in the squares.
pub fn squares(h: &mut Window, from: usize, to: usize)
    requires { (from ≤ to) × (to ≤ 288) }
    ensures squared { Between (square_at h.old.values.re h.old.values.im) from to h.old.squares h.new.squares }
    ensures values { h.new.values ≡ h.old.values }
{
    for j in from..to {
        h.squares[j] = complex::norm(h.values.at(j));
    }
}

// Adds N values to N sums. By an index: behind a `zip` of `iter_mut` a proof knows no element.
fn add<const N: usize>(acc: &mut [f32; N], q: &[f32; N])
    ensures { Added (λ i. get_or q.now i nan) 0 N acc.old acc.new }
{
    for (k, s) in acc.iter_mut().enumerate() {
        *s += q[k];
    }
}

// The powers of sixteen windows side by side: each run of sixteen squares from j on, n of them, adds one to each.
fn tile(power: &mut [f32; RUN], q: &[f32; PLACES], j: usize, n: usize)
    requires { (j ≤ 48) × (n ≤ 64) }
    ensures { Between (λ i. chain_of q.now i n) j (j + 16) power.old power.new }
{
    let mut acc = [0.0f32; 16];
    for w in q[j..].array_windows::<16>().take(n) {
        add(&mut acc, w);
    }
    power[j..j + 16].copy_from_slice(&acc);
}

// The powers of the windows from `from` on. By a place: a tile reads q at it too, and behind `chunks_exact_mut` a proof knows no element of `power`.
pub fn powers(power: &mut [f32; RUN], q: &[f32; PLACES], from: usize, n: usize)
    requires { (n ≤ 64) × ((from ≤ 64) × (from % 16 ≡ 0)) }
    ensures { Between (λ i. chain_of q.now i n) from 64 power.old power.new }
{
    for j in (from..RUN).step_by(16) {
        tile(power, q, j, n);
    }
}

// The step sizes by mu for the windows from .. to. The powers by an index, as in `add`; from and to, and no parts: `Between` speaks of the whole array.
#[tactic(auto, using(lanes::proofs::Between::between_more))]
fn divide(steps: &mut [f32; RUN], power: &[f32; RUN], from: usize, to: usize, mu: f32)
    requires { (from ≤ to) × (to ≤ 64) }
    ensures { Between (λ i. step_size mu (get_or power.now i nan)) from to steps.old steps.new }
{
    for (k, s) in steps[from..to].iter_mut().enumerate() {
        *s = steps::step_size(mu, power[from + k]);
    }
}

// How many samples from now on are in Cma, at most RUN.
#[tactic(auto, unfolding(crate::specs::Clock::left_in))]
fn cma_left(s: EqualizeState) -> usize
    ensures { result ≡ cma_left s }
{
    let p = s.params;
    match s.mode {
        EqMode::Decision => 0,
        EqMode::Cma if p.cma_symbols == EqParams::NEVER_SWITCH => RUN,
        EqMode::Cma => RUN.min(p.cma_symbols.saturating_sub(s.count) as usize),
    }
}

// The step sizes, each by the mode that its sample will have.
#[tactic(auto, using(crate::proofs::Clock::left_most))]
pub fn sizes(ahead: &mut Ahead, s: EqualizeState, from: usize)
    requires { from ≤ 64 }
    ensures sizes { StepSizes s ahead.old.power from ahead.new.steps }
    ensures power { ahead.new.power ≡ ahead.old.power }
{
    let p = s.params;
    let edge = RUN - cma_left(s);
    let low = from.min(edge);
    divide(&mut ahead.steps, &ahead.power, low, edge, p.mu_dd);
    divide(&mut ahead.steps, &ahead.power, edge, RUN, p.mu_cma);
}
