// One sample on the arrays.
#![tactic(auto)]

ghost use Rattle.std.specs.Prelude.{◌≡◌, ◌+◌, ◌<◌, ◌≤◌, set};
ghost use Rattle.std.specs.List.{fold};
ghost use Rattle.definition.specs.Floats.{norm, ◌+f◌};
ghost use Rattle.lanes.specs.Arrays.{arrays_of};
ghost use Rattle.lanes_sample.specs.Measures.{Measures};

use dot::{Im, Re};
use lanes::{Shape, Weights, Window};
use types::C32;

// The filter sum and the window's power.
#[derive(Clone, Copy)]
pub struct Measured {
    pub y: C32,
    pub power: f32,
}

// forward, then each of q, added in order.
fn chain(q: &[f32], forward: f32) -> f32
    ensures { result ≡ fold (λ p v. p +f v) forward q.now }
{
    q.iter().fold(forward, |p, v| p + *v)
}

// The sum and the power of the window at `at`.
#[tactic(auto, using(crate::proofs::Measurement::measured))]
pub fn measure(g: Shape, at: usize, w: &Weights, h: &Window, forward: f32) -> Measured
    requires { at ≤ 63 }
    ensures { Measures g.m g.lanes g.more g.front at (arrays_of w.now h.now) forward result.y result.power }
{
    let p = g.sums(at);
    let back = at + Window::FED;
    let power = chain(&h.squares[back..back + g.m], forward);
    let re = lanes_filter::dot_split::<Re>(h, w, p.forth, p.fed);
    let im = lanes_filter::dot_split::<Im>(h, w, p.forth, p.fed);
    Measured {
        y: C32 { re, im },
        power,
    }
}

// The fed-back sample into the feedback window.
pub fn feed(h: &mut Window, j: usize, v: C32)
    requires { j < 288 }
    ensures re { h.new.values.re ≡ set h.old.values.re j v.re }
    ensures im { h.new.values.im ≡ set h.old.values.im j v.im }
    ensures squares { h.new.squares ≡ set h.old.squares j (norm v) }
{
    h.values.put(j, v);
    h.squares[j] = complex::norm(v);
}
