// The samples of a run on the arrays: w the weights, h the window, lent apart, since the step writes w and reads h. The feedback's lanes and places are the upper halves.
#![tactic(auto)]

ghost use Rattle.std.specs.Prelude.{◌≡◌, true, ◌≤◌, length};
ghost use Rattle.definition.specs.Rules.{rule_r4};
ghost use Rattle.lanes.specs.Arrays.{arrays_of};
ghost use Rattle.lanes.specs.Fed.{fed_at};
ghost use Rattle.lanes.specs.Adapts.{Adapts};
ghost use Rattle.steps.specs.Step.{step_of, heard_of};
ghost use Rattle.run_samples.specs.Sample.{size_of, Takes, Samples};
ghost use Rattle.run_samples.specs.Run.{SameSamples, Runs};

use lanes::{LANES, RUN, Shape, Weights, Window};
use lanes_prepare::Ahead;
use lanes_sample::Measured;
use steps::{Sampled, Stage};
use types::{C32, EqualizeState, Mark};

// What a call fixes: the forward taps, the shape, and the limits of the lanes.
#[derive(Clone, Copy)]
pub struct Call {
    pub n: usize,
    pub shape: Shape,
    pub limit: [f32; LANES],
    pub ghost most: { n ≤ 63 },
}

// The step size of a sample: made ahead without feedback.
#[tactic(auto, unfolding(crate::specs::Sample::size_of))]
fn step_size(s: EqualizeState, m: usize, ahead: f32, power: f32) -> f32
    ensures { result ≡ size_of s m ahead power }
{
    if m == 0 {
        ahead
    } else {
        steps::size_of(s, power)
    }
}

// A sample that stands at `at` in the forward window: what came, the power of that window, and its step size without feedback, both made ahead.
#[derive(Clone, Copy)]
struct Entry {
    at: usize,
    x: C32,
    forward: f32,
    ahead: f32,
    ghost within: { at ≤ 63 },
}

// A sample whose sum is finite: its step, and the weights after it.
fn hear(s: EqualizeState, call: &Call, e: Entry, f: Measured, w: &mut Weights, h: &Window) -> Stage
    ensures value { result ≡ heard_of (step_of s f.y e.forward (size_of s call.now.shape.m e.ahead f.power)) }
    ensures adapts { let g = call.now.shape in
        Adapts (step_of s f.y e.forward (size_of s g.m e.ahead f.power)).update w.old.re w.old.im call.now.limit h.now.values.re h.now.values.im e.at g.quads
        (fed_at e.at g.front) g.mquads g.centre w.new.re w.new.im }
{
    let g = call.shape;
    let size = step_size(s, g.m, e.ahead, f.power);
    let r = steps::follow(s, f.y, e.forward, size);
    lanes_adapt::update_split(r.update, w, &call.limit, h, g.steps(e.at), g.centre);
    Stage::from(r)
}

// Steps 2 to 7 of a sample. The two tests stand in `plain` too, six lines here and six there: one function of both, which refuses with a mark, is ten with its contract, and
// behind its `?` this would give a Result, which the caller takes apart.
#[tactic(auto, using(crate::proofs::OneSample::take_blank, crate::proofs::OneSample::take_spilled, crate::proofs::OneSample::take_heard))]
fn take(s: EqualizeState, call: &Call, e: Entry, w: &mut Weights, h: &Window) -> Stage
    ensures { Takes s call.now.shape e.at e.x e.forward e.ahead call.now.limit (arrays_of w.old h.now) w.new.re w.new.im result }
{
    let f = lanes_sample::measure(call.shape, e.at, w, h, e.forward);
    if !numeric::finite_c(e.x) {
        return Stage::unheard(s, Mark::Blank);
    }
    if !numeric::finite_c(f.y) {
        return Stage::unheard(s, Mark::Spilled);
    }
    hear(s, call, e, f, w, h)
}

// Steps 2 to 8 of a sample.
fn sample(s: EqualizeState, call: &Call, e: Entry, w: &mut Weights, h: &mut Window) -> Sampled
    requires { rule_r4 s ≡ true }
    ensures { Samples s call.now.shape e.at e.x e.forward e.ahead call.now.limit (arrays_of w.old h.old) (arrays_of w.new h.new) result }
{
    let r = take(s, call, e, w, h);
    lanes_sample::feed(h, e.at + Window::BACK, r.fed);
    r.sampled(s)
}

// The samples of a run, at most RUN, which stand in the forward window, the first at RUN - 1. The index is the sample's place in five arrays more.
pub fn run(
    state: EqualizeState,
    call: &Call,
    w: &mut Weights,
    h: &mut Window,
    ahead: &Ahead,
    input: &[f32],
    output: &mut [f32],
    marks: &mut [u8],
    numbers: &mut [u8],
) -> EqualizeState
    requires marks_len_bound { (length marks.old ≤ 64) × SameSamples input.now output.old marks.old numbers.old }
    requires state_value { rule_r4 state ≡ true }
    ensures { Runs state call.now.shape call.now.limit (arrays_of w.old h.old) ahead.now.power ahead.now.steps input.now
        (arrays_of w.new h.new) output.new marks.new numbers.new result }
{
    let mut s = state;
    for (k, mark) in marks.iter_mut().enumerate() {
        let at = RUN - 1 - k;
        let e = Entry {
            at,
            x: complex::at(input, k),
            forward: ahead.power[at],
            ahead: ahead.steps[at],
        };
        let r = sample(s, call, e, w, h);
        complex::put(output, k, r.out);
        *mark = u8::from(r.told.mark);
        numbers[k] = r.told.number;
        s = r.state;
    }
    s
}
