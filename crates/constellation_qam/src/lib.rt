// The square constellations: levels, the nearest level of a part, the nearest point and its number.
#![tactic(auto)]

mod grid;

ghost use Rattle.std.specs.Prelude.{◌≡◌, ◌-◌, ◌<◌, cond, pos, count_by};
ghost use Rattle.std.specs.List.{range_with_len};
ghost use Rattle.std.specs.Float.{binary32};
ghost use Rattle.std.specs.Float.Ieee.{le, of_int};
ghost use Rattle.definition.specs.Floats.{◌+f◌, ◌*f◌, complex};
ghost use Rattle.definition.specs.Points.{level_of, qam_point, symbol_of};
ghost use Rattle.constellation_qam.specs.Nearest.{nearest, level_on, code_on, number_on};

use crate::grid::{GRAYS, Grid, QAM16, QAM64};
pub use crate::grid::{QAM16_LEVELS, QAM64_LEVELS};
use types::{C32, Decided, Qam};

// A select: by an `if` in the loop a sample of 64-QAM took 127 ns by the plain path, and not 124.
fn pick<A: Copy>(b: bool, yes: A, no: A) -> A
    ensures { result ≡ cond b yes no }
{
    if b { yes } else { no }
}

// The level nearest to a part: its value and its Gray code.
#[derive(Clone, Copy)]
struct Level {
    value: f32,
    code: u32,
}

impl<const M: usize> Grid<M> {
    // The place of a part v on the grid.
    fn place(&self, v: f32) -> f32
        ensures { result ≡ v *f self.now.scale +f self.now.half }
    {
        v * self.scale + self.half
    }

    // How many of the places 1 .. M - 1 lie at t or below.
    fn reached(&self, t: f32) -> usize
        ensures below { result < M }
        ensures count { result ≡ count_by (λ k. le (of_int binary32 (pos k)) t) (range_with_len 1 (M - 1)) }
    {
        (1..M).filter(|k| t >= *k as f32).count()
    }

    // The index of the level nearest to a part v: how many of the places 1 .. M - 1 its own reaches. That is its floor, held to 0 .. M - 1. A NaN gives 0.
    #[tactic(auto, using(crate::proofs::Levels::counted_is))]
    fn index(&self, v: f32) -> usize
        ensures value { result ≡ nearest M self.now.scale self.now.half v }
        ensures below { result < M }
    {
        self.reached(self.place(v))
    }

    // The level nearest to a part v, by comparisons that select its value and its code. Not `self.levels[self.index(v)]`: a sample of 16-QAM took 96 ns so, and 92
    // by this loop. No `fold`: in this generic block its closure, which takes a level by its place, would need a `requires` and an `ensures` of its own.
    #[tactic(auto, using(crate::proofs::Levels::first_at, crate::proofs::Levels::next_at, crate::proofs::Levels::code_below))]
    fn level(&self, v: f32) -> Level
        ensures value { result.value ≡ level_on M self.now v }
        ensures code { result.code ≡ code_on M self.now v }
        ensures below { result.code < 8 }
    {
        let t = self.place(v);
        let mut value = self.levels[0];
        let mut code = GRAYS[0];
        for k in 1..M {
            let reached = t >= k as f32;
            value = pick(reached, self.levels[k], value);
            code = pick(reached, GRAYS[k], code);
        }
        Level { value, code }
    }

    // The point nearest to y, part by part, and its number: the code of the real part's level in the high bits. No `map`: in this generic block a closure that
    // calls a function would need a contract of its own.
    fn decided(&self, y: C32) -> Decided
        ensures point { result.point ≡ complex
            (level_on M self.now y.re)
            (level_on M self.now y.im) }
        ensures number { result.number ≡ number_on M self.now y }
        ensures below { result.number < 64 }
    {
        let re = self.level(y.re);
        let im = self.level(y.im);
        Decided {
            point: C32 {
                re: re.value,
                im: im.value,
            },
            number: re.code * M as u32 + im.code,
        }
    }
}

// The index of the level nearest to a part v: the floor of v * sqrt(E) / 2 + m / 2, held to 0 .. m - 1.
#[tactic(auto, unfolding(definition::specs::Points::level_of))]
pub fn decide_level(q: Qam, v: f32) -> u32
    ensures { result ≡ level_of q v }
{
    match q {
        Qam::Qam16 => QAM16.index(v) as u32,
        Qam::Qam64 => QAM64.index(v) as u32,
    }
}

// The point of either nearest to y, and its number.
#[tactic(auto, unfolding(definition::specs::Points::levels, definition::specs::Points::level_of, definition::specs::Points::level_at, definition::specs::Points::qam_point, definition::specs::Points::symbol_of))]
pub fn decide_qam(q: Qam, y: C32) -> Decided
    ensures value { result ≡ record { point = qam_point q y; number = symbol_of q y } }
    ensures below { result.number < 64 }
{
    match q {
        Qam::Qam16 => QAM16.decided(y),
        Qam::Qam64 => QAM64.decided(y),
    }
}

// The number of the point of either nearest to y.
pub fn decide_symbol(q: Qam, y: C32) -> u32
    ensures { result ≡ symbol_of q y }
{
    decide_qam(q, y).number
}
