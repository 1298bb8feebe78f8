// Loops over the weights and the window. `shift` and `window_power` take a count and not a part of the slice: so the definition says them, of the whole window,
// and with the part lent a law would have to put it back into the whole. `2 * n ≤ length` stands in two contracts: a name for it would be no shorter.
ghost use Rattle.std.specs.Prelude.{◌≡◌, ◌+◌, ◌*◌, ◌/◌, ◌<◌, ◌≤◌, length};
ghost use Rattle.definition.specs.Slices.{shifted, power as powerDef, updated};
ghost use Rattle.definition.specs.Sample.{adapted};

use crate::counts::Taps;
use types::{C32, Update};

// The first n numbers move up by one, and v goes in at 0. Not by `copy_within`: a sample with 15 + 5 taps took 160 ns so, and 152 by this loop.
#[tactic(auto, using(definition_laws::proofs::Mapped::mapped_none))]
pub(crate) fn shift(x: &mut [f32], n: usize, v: C32)
    requires { 2 * n ≤ length x.old }
    ensures { x.new ≡ shifted n v x.old }
{
    let mut next = v;
    for i in 0..n {
        let old = complex::at(x, i);
        complex::put(x, i, next);
        next = old;
    }
}

// The power of the first n numbers, summed in their order, where `first` is the sum of the first `from`.
pub(crate) fn window_power(x: &[f32], from: usize, first: f32, n: usize) -> f32
    requires { (2 * n ≤ length x.now) × ((from ≤ n) × (first ≡ powerDef x.now from)) }
    ensures { result ≡ powerDef x.now n }
{
    let (pairs, _) = x.as_chunks::<2>();
    pairs[from..n].iter().fold(
        first,
        |sum, [re, im]| sum + complex::norm(C32 { re: *re, im: *im }),
    )
}

// The weights renewed. By their places: of `as_chunks_mut` the library says what the pairs hold at first, and not what the slice holds once they are
// written.
#[tactic(auto, using(definition_laws::proofs::Mapped::mapped_none), unfolding(definition::specs::Slices::updated))]
fn renew(w: &mut [f32], x: &[f32], g: C32)
    requires { length w.old ≤ length x.now }
    ensures { w.new ≡ updated (length w.old / 2) g w.old x.now }
{
    for i in 0..w.len() / 2 {
        let v = steps::weight(complex::at(w, i), numeric::TINY, complex::at(x, i), g);
        complex::put(w, i, v);
    }
}

// The weights after an update. One that is not finite sets them all to the start weights.
#[tactic(auto, using(crate::proofs::Weights::adapt_hold, crate::proofs::Weights::adapt_reset, crate::proofs::Weights::adapt_kept))]
pub(crate) fn update_weights(u: Update, w: &mut [f32], x: &[f32], taps: Taps)
    requires { (length w.old ≡ 2 * taps.all) × (2 * taps.all ≤ length x.now) }
    ensures { w.new ≡ adapted u taps.all taps.forward w.old x.now }
{
    let Update::Step(gr, gi) = u else {
        return;
    };
    renew(w, x, C32 { re: gr, im: gi });
    if !record_rules::all_finite(w) {
        record_start::start_weights(w, taps.forward);
    }
}
