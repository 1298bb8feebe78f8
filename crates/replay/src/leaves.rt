// The leaves, and what a line of each holds: the patterns of the inputs, then of the outputs. A leaf tells whether a
// line agrees with it, and nothing of a line that is not in its form.
ghost use Rattle.std.specs.Prelude.{◌≤◌, length};

use crate::patterns::{case_of, double, same, single, whole};
use crate::words::floats;
use types::{C32, CosSin, Decided, EqConstellation, Qam};

#[derive(Clone, Copy)]
pub(crate) struct Leaf {
    pub(crate) name: &'static str,
    // How many f64 a line begins with.
    pub(crate) doubles: usize,
    // A function's pointer: no leaf holds anything, so that a closure would say no more.
    pub(crate) agrees: fn(&[u64]) -> Option<bool>,
    ghost callable: { IsAlwaysCallable agrees },
}

impl Leaf {
    pub(crate) fn new(
        name: &'static str,
        doubles: usize,
        agrees: fn(&[u64]) -> Option<bool>,
    ) -> Leaf
        requires { IsAlwaysCallable agrees }
    {
        Leaf {
            name,
            doubles,
            agrees,
        }
    }

    // How many digits the word has that stands at a place of a line.
    pub(crate) fn digits(&self, at: usize) -> u32 {
        if at < self.doubles { 16 } else { 8 }
    }
}

// The most taps of a line of dot_complex.
const DOT_TAPS: u64 = 126;

// The words of a line that has N. Two leaves of one form, as `derotate` and `rotate`, have eight lines; by a function that takes theirs they would
// have twelve.
fn line<const N: usize>(w: &[u64]) -> Option<[u64; N]> {
    w.try_into().ok()
}

pub(crate) fn is_finite(w: &[u64]) -> Option<bool> {
    let [x, y]: [u64; 2] = line(w)?;
    Some(u64::from(numeric::is_finite(single(x))) == y)
}

pub(crate) fn flush_denormal(w: &[u64]) -> Option<bool> {
    let [x, y]: [u64; 2] = line(w)?;
    Some(same(numeric::flush_denormal(single(x)), y))
}

pub(crate) fn clip(w: &[u64]) -> Option<bool> {
    let [x, limit, y]: [u64; 3] = line(w)?;
    Some(same(numeric::clip(single(x), single(limit)), y))
}

pub(crate) fn narrow(w: &[u64]) -> Option<bool> {
    let [x, y]: [u64; 2] = line(w)?;
    Some(same(numeric::narrow(double(x)), y))
}

// The damping is the tracker's own.
pub(crate) fn loop_gains(w: &[u64]) -> Option<bool> {
    let [bandwidth, damping, kp, ki]: [u64; 4] = line(w)?;
    let damping = double(damping);
    let g = costas::loop_gains(double(bandwidth), damping);
    Some((damping == costas::PHASE_DAMPING) & same(g.kp, kp) & same(g.ki, ki))
}

pub(crate) fn phase_step(w: &[u64]) -> Option<bool> {
    let [x, y]: [u64; 2] = line(w)?;
    Some(u64::from(costas_step::phase_step_f32(single(x))) == y)
}

pub(crate) fn integrate(w: &[u64]) -> Option<bool> {
    let [x, step, y]: [u64; 3] = line(w)?;
    Some(same(costas::integrate(single(x), single(step)), y))
}

pub(crate) fn interp_pair(w: &[u64]) -> Option<bool> {
    let [phase, c, s]: [u64; 3] = line(w)?;
    let t = mix::interp_f32_pair(whole(phase));
    Some(same(t.c, c) & same(t.s, s))
}

// The complex number of two patterns.
fn complex(re: u64, im: u64) -> C32 {
    C32 {
        re: single(re),
        im: single(im),
    }
}

fn same_complex(y: C32, re: u64, im: u64) -> bool {
    same(y.re, re) & same(y.im, im)
}

fn same_decided(d: Decided, re: u64, im: u64, n: u64) -> bool {
    same_complex(d.point, re, im) & (u64::from(d.number) == n)
}

fn turn(c: u64, s: u64) -> CosSin {
    CosSin {
        c: single(c),
        s: single(s),
    }
}

pub(crate) fn derotate(w: &[u64]) -> Option<bool> {
    let [re, im, c, s, y, z]: [u64; 6] = line(w)?;
    Some(same_complex(costas::derotate(complex(re, im), turn(c, s)), y, z))
}

pub(crate) fn rotate(w: &[u64]) -> Option<bool> {
    let [re, im, c, s, y, z]: [u64; 6] = line(w)?;
    Some(same_complex(costas::rotate(complex(re, im), turn(c, s)), y, z))
}

pub(crate) fn octant_point(w: &[u64]) -> Option<bool> {
    let [re, im, y, z, n]: [u64; 5] = line(w)?;
    Some(same_decided(costas::octant_point(complex(re, im)), y, z, n))
}

// The square constellation of a word.
fn square(k: u64) -> Option<Qam> {
    match case_of(k)? {
        EqConstellation::Qam16 => Some(Qam::Qam16),
        EqConstellation::Qam64 => Some(Qam::Qam64),
        _ => None,
    }
}

pub(crate) fn decide_level(w: &[u64]) -> Option<bool> {
    let [k, x, level]: [u64; 3] = line(w)?;
    Some(square(k).is_some_and(|q| {
        u64::from(constellation_qam::decide_level(q, single(x))) == level
    }))
}

pub(crate) fn decide_symbol(w: &[u64]) -> Option<bool> {
    let [k, re, im, n]: [u64; 4] = line(w)?;
    Some(square(k).is_some_and(|q| {
        u64::from(constellation::decide_symbol(q, complex(re, im))) == n
    }))
}

pub(crate) fn decide(w: &[u64]) -> Option<bool> {
    let [k, re, im, y, z, n]: [u64; 6] = line(w)?;
    let decided = case_of(k).map(|k| constellation::decide(k, complex(re, im)));
    Some(decided.is_some_and(|d| same_decided(d, y, z, n)))
}

pub(crate) fn cma_r2(w: &[u64]) -> Option<bool> {
    let [k, y]: [u64; 2] = line(w)?;
    Some(case_of(k).is_some_and(|k| same(constellation::cma_r2(k), y)))
}

// The count of taps, the parts of the window, those of the weights, then the sum.
pub(crate) fn dot_complex(mut w: &[u64]) -> Option<bool> {
    let n = *w.split_off_first()?;
    if n > DOT_TAPS {
        return None;
    }
    let parts = 2 * (n as usize);
    let window = floats(w.split_off(..parts)?);
    let weights = floats(w.split_off(..parts)?);
    let [re, im]: [u64; 2] = line(w)?;
    let y = dot::dot_complex_c32(window.as_slice(), weights.as_slice());
    Some(same_complex(y, re, im))
}
