// The filter sum over split arrays, in blocks of eight lanes.
#![tactic(auto)]

ghost use Rattle.std.specs.Prelude.{◌≡◌, ◌+◌, ◌<◌, ◌≤◌, ◌%◌};
ghost use Rattle.lanes_filter.specs.Split.{split_of, Onto, sum_two};
ghost use Rattle.dot.specs.Added.{Added};

use dot::Part;
use lanes::{Half, Weights, Window};

// A half of the lanes, with the window and the weights.
#[derive(Clone, Copy)]
struct Taps<'a> {
    h: &'a Window,
    w: &'a Weights,
    p: Half,
}

// The part of window value at + j times weight from + j.
fn product_at<P: Part>(t: Taps, j: usize) -> f32
    requires { j < t.p.lanes }
    ensures { result ≡ split_of P.product t.entry.h.now t.entry.w.now t.entry.p j }
{
    P::product(t.h.values.at(t.p.at + j), t.w.at(t.p.from + j))
}

// Adds eight products, from i on, to the eight partial sums. By an index: behind a `zip` of `iter_mut` a proof knows no element.
fn add_block<P: Part>(acc: &mut [f32; 8], t: Taps, i: usize)
    requires { i + 8 ≤ t.p.lanes }
    ensures { Added (split_of P.product t.entry.h.now t.entry.w.now t.entry.p) i 8 acc.old acc.new }
{
    for (k, s) in acc.iter_mut().enumerate() {
        *s += product_at::<P>(t, i + k);
    }
}

// All blocks of a half. By a place: a block is a place in both structs, and no part of one slice.
fn add_half<P: Part>(acc: &mut [f32; 8], t: Taps)
    requires { t.p.lanes % 8 ≡ 0 }
    ensures { Onto (split_of P.product t.entry.h.now t.entry.w.now t.entry.p) t.entry.p.lanes acc.old acc.new }
{
    for i in (0..t.p.lanes).step_by(8) {
        add_block::<P>(acc, t, i);
    }
}

// The part of the sum over both halves, one after the other, each of whole blocks of eight. By two halves: a `Halves` would ask more of a caller, `from` 0 and 72.
#[tactic(auto, using(crate::proofs::Blocks::onto_tree))]
pub fn dot_split<P: Part>(h: &Window, w: &Weights, p: Half, q: Half) -> f32
    requires blocks { (p.lanes % 8 ≡ 0) × (q.lanes % 8 ≡ 0) }
    ensures { result ≡ sum_two (split_of P.product h.now w.now p) p.lanes (split_of P.product h.now w.now q) q.lanes }
{
    let mut acc = [0.0f32; 8];
    add_half::<P>(&mut acc, Taps { h, w, p });
    add_half::<P>(&mut acc, Taps { h, w, p: q });
    dot::dot_complex_tree(&acc)
}
