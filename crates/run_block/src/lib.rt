// The quick path and the joint path as one code: a block of samples in runs, the caller's slices into the arrays, run after run, and back.
#![tactic(auto)]

ghost use Rattle.std.specs.Prelude.{◌≡◌, true, ◌+◌, ◌*◌, ◌%◌, ◌≤◌, length};
ghost use Rattle.definition.specs.Slices.{samples_of};
ghost use Rattle.definition.specs.Packed.{equalizer, Ran};
ghost use Rattle.definition.specs.Rules.{rule_r4};
ghost use Rattle.definition.specs.Run.{run_def};
ghost use Rattle.lanes.specs.Arrays.{arrays_of};
ghost use Rattle.run_samples.specs.Sample.{Formed};
ghost use Rattle.run_samples.specs.Run.{SameSamples};
ghost use Rattle.run_block.specs.Block.{AllRuns, Empty, Loads, Stores, Asked};

use lanes::{RUN, Shape, Weights, Window};
use lanes_prepare::Ahead;
use run_samples::Call;
use types::EqualizeState;

// All runs of a block. By a place: behind `chunks_mut` a proof knows no element of output, marks and numbers.
#[tactic(auto, using(crate::proofs::BlockLoop::loop_none, crate::proofs::BlockLoop::loop_all))]
fn linear_runs(
    state: EqualizeState,
    call: &Call,
    w: &mut Weights,
    h: &mut Window,
    input: &[f32],
    output: &mut [f32],
    marks: &mut [u8],
    numbers: &mut [u8],
) -> EqualizeState
    requires input_len { SameSamples input.now output.old marks.old numbers.old }
    requires state_value { rule_r4 state ≡ true }
    ensures { AllRuns state call.now.shape call.now.n call.now.limit (arrays_of w.old h.old) input.now (arrays_of w.new h.new) output.new marks.new numbers.new result }
{
    let mut ahead = Ahead::ZERO;
    let mut s = state;
    for i in (0..marks.len()).step_by(RUN) {
        let e = (i + RUN).min(marks.len());
        s = run_one::run(
            s, call, w, h, &mut ahead, input, output, marks, numbers, i, e,
        );
    }
    s
}

// The shape of n forward and m feedback taps: no feedback lanes where m is 0.
fn shape_of(n: usize, m: usize) -> Shape
    requires { (3 ≤ n) × ((n ≤ 63) × (m ≤ 63)) }
    ensures { Formed n m result }
{
    let front = n % 8;
    let back = if m == 0 { 0 } else { front + m };
    Shape {
        lanes: n.next_multiple_of(8),
        more: back.next_multiple_of(8),
        quads: n.next_multiple_of(4),
        mquads: back.next_multiple_of(4),
        front,
        m,
        centre: n / 2,
    }
}

// The caller's slices into empty arrays.
fn load_linear(call: &Call, weights: &[f32], window: &[f32], w: &mut Weights, h: &mut Window)
    requires weights_len { let m = call.now.shape.m in (length weights.now ≡ 2 * (call.now.n + m)) × (length window.now ≡ 2 * (call.now.n + m)) }
    requires front { call.now.shape.front ≡ call.now.n % 8 }
    requires empty { Empty (arrays_of w.old h.old) }
    ensures { Loads call.now.n call.now.shape.m weights.now window.now (arrays_of w.new h.new) }
{
    let n = call.n;
    let Shape { front, m, .. } = call.shape;
    lanes_load::split(&mut w.re, &mut w.im, 0, weights, 0, n);
    lanes_load::split(&mut w.re, &mut w.im, Weights::BACK + front, weights, n, m);
    let v = &mut h.values;
    lanes_load::split(&mut v.re, &mut v.im, RUN, window, 0, n);
    lanes_load::split(&mut v.re, &mut v.im, Window::HOME, window, n, m);
    lanes_prepare::squares(h, Window::HOME, Window::HOME + m);
}

// And back.
#[tactic(auto, using(crate::proofs::Call::stores))]
fn store_linear(call: &Call, weights: &mut [f32], window: &mut [f32], w: &Weights, h: &Window)
    requires weights_len { let m = call.now.shape.m in (length weights.old ≡ 2 * (call.now.n + m)) × (length window.old ≡ 2 * (call.now.n + m)) }
    requires front { call.now.shape.front ≡ call.now.n % 8 }
    ensures { Stores call.now.n call.now.shape.m w.now.re w.now.im h.now.values.re h.now.values.im weights.old window.old weights.new window.new }
{
    let n = call.n;
    let Shape { front, m, .. } = call.shape;
    lanes_load::joined(weights, &w.re, &w.im, 0, 0, n);
    lanes_load::joined(weights, &w.re, &w.im, Weights::BACK + front, n, m);
    lanes_load::joined(window, &h.values.re, &h.values.im, RUN, 0, n);
    lanes_load::joined(window, &h.values.re, &h.values.im, Window::HOME, n, m);
}

// A block by n forward and m feedback taps: arrays, all runs, and back. The taps are counted in `run_linear`, where a wrong count costs the check of a small crate.
#[tactic(auto, using(crate::proofs::Call::asked_shape, crate::proofs::Call::asked_long, crate::proofs::Call::call_is))]
pub fn linear_state(
    state: EqualizeState,
    weights: &mut [f32],
    window: &mut [f32],
    input: &[f32],
    output: &mut [f32],
    marks: &mut [u8],
    numbers: &mut [u8],
    n: usize,
    m: usize,
) -> EqualizeState
    requires { Asked state weights.old window.old input.now output.old marks.old numbers.old n m }
    ensures { Ran (run_def (equalizer state weights.old window.old) (samples_of input.now))
        (equalizer result weights.new window.new) output.new marks.new numbers.new }
{
    let shape = shape_of(n, m);
    let call = Call {
        n,
        shape,
        limit: lanes_load::limits(n, shape.front, shape.m),
    };
    let mut w = Weights::ZERO;
    let mut h = Window::ZERO;
    load_linear(&call, weights, window, &mut w, &mut h);
    #[tactic(auto, using(crate::proofs::Call::asked_r4))]
    let s = linear_runs(state, &call, &mut w, &mut h, input, output, marks, numbers);
    store_linear(&call, weights, window, &w, &h);
    s
}
