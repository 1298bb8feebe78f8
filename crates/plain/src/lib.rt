// The plain path, step by step over the caller's slices.
#![tactic(auto)]

use counts::Taps;
use steps::{Sampled, Stage};
use types::{C32, EqualizeState, Mark};

mod counts;
mod slices;

ghost use Rattle.std.specs.Prelude.{◌≡◌, true, ◌++◌, ◌-◌, ◌*◌, ◌≤◌, length, take, drop};
ghost use Rattle.definition.specs.Slices.{shifted, samples_of};
ghost use Rattle.definition.specs.Packed.{equalizer, ServedBlock, Ran};
ghost use Rattle.definition.specs.Sample.{step2, step3, hear as hearDef, heard_as, sample_def};
ghost use Rattle.definition.specs.Rules.{rule_r4, accepted_def};
ghost use Rattle.definition.specs.Run.{run_def};
ghost use Rattle.steps.specs.Step.{stage, did};
ghost use Rattle.plain.specs.Taps.{Beside};

// Steps 4 to 7: a sample whose sum y is finite. Cosine and sine come before the powers, by `steps::step`: by `steps::follow`, behind
// those long sums, a sample with 3 taps took 16 % more, and 7 % with 63. What `hear` of `run_samples` has too is
// `steps`' step: there the powers are at hand, `steps::follow` makes cosine and sine, and the weights are split.
#[tactic(auto, using(crate::proofs::OneSample::heard_by, crate::proofs::OneSample::power_none))]
fn hear(s: EqualizeState, w: &mut [f32], h: &[f32], y: C32, taps: Taps) -> Stage
    requires { Beside s w.old h.now taps }
    ensures { stage s result w.new ≡ heard_as s w.old taps.all taps.forward h.now (hearDef s taps.all taps.forward h.now y) }
{
    let turn = mix::interp_f32_pair(s.phase);
    let forward = slices::window_power(h, 0, 0.0, taps.forward);
    let power = slices::window_power(h, taps.forward, forward, taps.all);
    let size = steps::size_of(s, power);
    let r = steps::step(s, turn, y, forward, size);
    slices::update_weights(r.update, w, h, taps);
    Stage::from(r)
}

// Steps 2 to 7, over the shifted window. The two tests stand in `run_samples` too, where the reason is; here the sum comes between them.
#[tactic(auto, using(crate::proofs::OneSample::took_blank, crate::proofs::OneSample::took_spilled, crate::proofs::OneSample::took_heard))]
fn take(s: EqualizeState, w: &mut [f32], h: &[f32], x: C32, taps: Taps) -> Stage
    requires { Beside s w.old h.now taps }
    ensures { stage s result w.new ≡ step3 s w.old taps.all taps.forward x h.now (step2 taps.all w.old h.now) }
{
    if !numeric::finite_c(x) {
        return Stage::unheard(s, Mark::Blank);
    }
    let y = dot::dot_complex_c32(h, w);
    if !numeric::finite_c(y) {
        return Stage::unheard(s, Mark::Spilled);
    }
    hear(s, w, h, y, taps)
}

// v into the feedback taps' part of the window.
fn feed(h: &mut [f32], taps: Taps, v: C32)
    requires { length h.old ≡ 2 * taps.all }
    ensures { h.new ≡ take (2 * taps.forward) h.old ++ shifted (taps.all - taps.forward) v (drop (2 * taps.forward) h.old) }
{
    let a = 2 * taps.forward;
    slices::shift(&mut h[a..], taps.feedback(), v);
}

// Steps 1 to 8.
#[tactic(auto, using(crate::proofs::OneSample::counted), unfolding(definition::specs::Sample::sample_def, definition::specs::Sample::step1, definition::specs::Sample::step8, definition::specs::Sample::fed_in))]
fn sample_sized(s: EqualizeState, w: &mut [f32], h: &mut [f32], x: C32, taps: Taps) -> Sampled
    requires beside { Beside s w.old h.old taps }
    requires s_value { rule_r4 s ≡ true }
    ensures { did result w.new h.new ≡ sample_def (equalizer s w.old h.old) x }
{
    slices::shift(h, taps.forward, numeric::sanitize(x));
    let r = take(s, w, h, x, taps);
    feed(h, taps, r.fed);
    r.sampled(s)
}

// One sample of an accepted record.
#[tactic(auto, using(crate::proofs::OneSample::accepted_taps, crate::proofs::OneSample::accepted_r4))]
fn sample(s: EqualizeState, w: &mut [f32], h: &mut [f32], x: C32) -> Sampled
    requires { accepted_def (equalizer s w.old h.old) ≡ true }
    ensures { did result w.new h.new ≡ sample_def (equalizer s w.old h.old) x }
{
    let taps = Taps {
        all: w.len() / 2,
        forward: s.taps(w),
    };
    sample_sized(s, w, h, x, taps)
}

// A block of samples.
#[tactic(auto, using(crate::proofs::BlockLoop::turns_all))]
pub fn block(
    state: EqualizeState,
    weights: &mut [f32],
    window: &mut [f32],
    input: &[f32],
    output: &mut [f32],
    marks: &mut [u8],
    numbers: &mut [u8],
) -> EqualizeState
    requires { ServedBlock (equalizer state weights.old window.old) input.now output.old marks.old numbers.old }
    ensures { Ran (run_def (equalizer state weights.old window.old) (samples_of input.now))
        (equalizer result weights.new window.new) output.new marks.new numbers.new }
{
    let mut s = state;
    // by the place, which input and output need: numbers of an interleaved slice
    for (i, mark) in marks.iter_mut().enumerate() {
        let x = complex::at(input, i);
        let r = sample(s, weights, window, x);
        complex::put(output, i, r.out);
        *mark = u8::from(r.told.mark);
        numbers[i] = r.told.number;
        s = r.state;
    }
    s
}
