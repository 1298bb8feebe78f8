// The weights' step.
#![tactic(auto)]

ghost use Rattle.std.specs.Prelude.{◌≡◌, ◌+◌, ◌<◌, ◌≤◌, false};
ghost use Rattle.std.specs.Float.Ieee.{lt};
ghost use Rattle.types.specs.Bits.{one32};
ghost use Rattle.lanes.specs.Adapts.{Adapts};
ghost use Rattle.lanes_adapt.specs.Settled.{Settled, ruined};
ghost use Rattle.lanes_adapt.specs.Steps.{any_of, broken_at, clear_in, clear_of, Replaced, step_im, step_re, uneven};

use lanes::{Half, Halves, LANES, Weights, Window};
use types::{C32, Update};

// Whether a part of v is not finite. By two differences: by `numeric::finite_c` the quick path took 7 % more with 63 taps, the joint path 8 % with 31 + 15.
#[tactic(auto, unfolding(crate::specs::Steps::uneven))]
fn apart(v: C32) -> bool
    ensures { result ≡ uneven v.re v.im }
{
    (v.re - v.re) != (v.im - v.im)
}

// A step of one half's lanes, +0 in a part below the lane's limit: TINY, and infinity for padding; whether some lane is not finite. By an index: it is a place in two structs and an array. No `any` for the flag: it leaves early.
#[tactic(auto, using(crate::proofs::HalfLoop::half_none))]
fn update_half(w: &mut Weights, limit: &[f32; LANES], h: &Window, p: Half, g: C32) -> bool
    ensures re { Replaced (step_re w.old.re limit.now h.now.values.re h.now.values.im p.at p.from g.re g.im) p.from p.lanes w.old.re w.new.re }
    ensures im { Replaced (step_im w.old.im limit.now h.now.values.re h.now.values.im p.at p.from g.re g.im) p.from p.lanes w.old.im w.new.im }
    ensures value { result ≡ any_of p.lanes (λ i. uneven (step_re w.old.re limit.now h.now.values.re h.now.values.im p.at p.from g.re g.im i) (step_im w.old.im limit.now h.now.values.re h.now.values.im p.at p.from g.re g.im i)) }
{
    let mut bad = false;
    for i in 0..p.lanes {
        let k = p.from + i;
        let v = steps::weight(w.at(k), limit[k], h.values.at(p.at + i), g);
        w.put(k, v);
        bad |= apart(v);
    }
    bad
}

// Whether a lane is a weight's, by its limit: TINY, and infinity for padding. A number and no enum beside it: it is what `flush_below` compares with.
fn is_weight(limit: f32) -> bool
    ensures { result ≡ lt limit one32 }
{
    limit < 1.0
}

// Whether a lane is padding.
fn is_padding(limit: f32) -> bool
    ensures { result ≡ lt one32 limit }
{
    limit > 1.0
}

// Whether a lane that is no padding is not finite.
#[tactic(auto, unfolding(crate::specs::Steps::broken_at))]
fn broken_at(v: C32, limit: f32) -> bool
    ensures { result ≡ broken_at v.re v.im limit }
{
    is_weight(limit) & apart(v)
}

// Whether one of the weights is not finite: padding does not count.
fn broken(w: &Weights, limit: &[f32; LANES]) -> bool
    ensures { result ≡ ruined w.now.re w.now.im limit.now }
{
    limit
        .iter()
        .enumerate()
        .any(|(k, l)| broken_at(w.at(k), *l))
}

// +0 for padding.
#[tactic(auto, unfolding(crate::specs::Steps::clear_of))]
fn clear(v: f32, limit: f32) -> f32
    ensures { result ≡ clear_of v limit }
{
    if is_padding(limit) { 0.0 } else { v }
}

// Padding back to +0. The limit by an index: behind a `zip` of `iter_mut` a proof knows no element.
fn cleared(w: &mut [f32; LANES], limit: &[f32; LANES])
    ensures { Replaced (clear_in w.old limit.now) 0 144 w.old w.new }
{
    for (k, v) in w.iter_mut().enumerate() {
        *v = clear(*v, limit[k]);
    }
}

// After a lane that is not finite: the start weights if it is a weight's.
fn settle(w: &mut Weights, limit: &[f32; LANES], centre: usize)
    requires { centre < 144 }
    ensures { Settled w.old.re w.old.im limit.now centre w.new.re w.new.im }
{
    if broken(w, limit) {
        *w = Weights::ZERO;
        w.re[centre] = 1.0;
    } else {
        cleared(&mut w.re, limit);
        cleared(&mut w.im, limit);
    }
}

// The weights' step by the update u: both halves of the lanes, and the start weights where a weight is not finite.
#[tactic(auto, using(crate::proofs::Adaptation::adapt_hold))]
pub fn update_split(
    u: Update,
    w: &mut Weights,
    limit: &[f32; LANES],
    h: &Window,
    p: Halves,
    centre: usize,
)
    requires { centre < 72 }
    ensures { Adapts u w.old.re w.old.im limit.now h.now.values.re h.now.values.im p.forth.at p.forth.lanes p.fed.at p.fed.lanes centre w.new.re w.new.im }
{
    let Update::Step(re, im) = u else {
        return;
    };
    let g = C32 { re, im };
    let b1 = update_half(w, limit, h, p.forth, g);
    let b2 = update_half(w, limit, h, p.fed, g);
    if b1 | b2 {
        settle(w, limit, centre);
    }
}
