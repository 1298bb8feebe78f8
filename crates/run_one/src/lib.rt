// One run of a block: its samples put in and what is made ahead of them, the samples, and the windows back to their place.
#![tactic(auto)]

ghost use Rattle.std.specs.Prelude.{◌≡◌, true, ◌+◌, ◌-◌, ◌*◌, ◌≤◌, length};
ghost use Rattle.definition.specs.Rules.{rule_r4};
ghost use Rattle.lanes.specs.Arrays.{arrays_of};
ghost use Rattle.run_samples.specs.Run.{SameSamples};
ghost use Rattle.run_one.specs.WholeRun.{Prepared, Finished, WholeRun};

use lanes::{RUN, Weights, Window};
use lanes_prepare::Ahead;
use run_samples::Call;
use types::EqualizeState;

// The samples of a run into the window, and what depends on them alone.
fn prepare_run(s: EqualizeState, call: &Call, h: &mut Window, ahead: &mut Ahead, input: &[f32])
    requires { length input.now ≤ 128 }
    ensures { Prepared s call.now.n input.now h.old.values.re h.old.values.im h.old.squares h.new.values.re h.new.values.im h.new.squares ahead.new.power ahead.new.steps }
{
    let first = RUN - input.len() / 2;
    let from = first / 16 * 16;
    lanes_prepare::enter(h, input);
    lanes_prepare::squares(h, from, RUN + call.n);
    lanes_prepare::powers(&mut ahead.power, &h.squares, from, call.n);
    lanes_prepare::sizes(ahead, s, from);
}

// The windows of the last sample to where the next run looks for them.
fn finish_run(call: &Call, h: &mut Window, len: usize)
    requires { len ≤ 64 }
    ensures { Finished call.now.n call.now.shape.m (64 - len) h.old.values.re h.old.values.im h.old.squares h.new.values.re h.new.values.im h.new.squares }
{
    let first = RUN - len;
    lanes_load::moved(&mut h.values.re, first, RUN, call.n);
    lanes_load::moved(&mut h.values.im, first, RUN, call.n);
    let m = call.shape.m;
    let back = first + Window::BACK;
    lanes_load::moved(&mut h.values.re, back, Window::HOME, m);
    lanes_load::moved(&mut h.values.im, back, Window::HOME, m);
    lanes_load::moved(&mut h.squares, back, Window::HOME, m);
}

// One run: the samples i .. e, at most RUN. By i and e: the specification has the run's `&mut output[a..b]` here, in place.
pub fn run(
    state: EqualizeState,
    call: &Call,
    w: &mut Weights,
    h: &mut Window,
    ahead: &mut Ahead,
    input: &[f32],
    output: &mut [f32],
    marks: &mut [u8],
    numbers: &mut [u8],
    i: usize,
    e: usize,
) -> EqualizeState
    requires input_len { SameSamples input.now output.old marks.old numbers.old }
    requires i_le_e { (i ≤ e) × ((e ≤ i + 64) × (e ≤ length marks.old)) }
    requires state_value { rule_r4 state ≡ true }
    ensures { WholeRun state call.now.shape call.now.n call.now.limit (arrays_of w.old h.old) input.now output.old marks.old numbers.old i e
        (arrays_of w.new h.new) output.new marks.new numbers.new result }
{
    let a = 2 * i;
    let b = 2 * e;
    prepare_run(state, call, h, ahead, &input[a..b]);
    let r = run_samples::run(
        state,
        call,
        w,
        h,
        ahead,
        &input[a..b],
        &mut output[a..b],
        &mut marks[i..e],
        &mut numbers[i..e],
    );
    finish_run(call, h, e - i);
    r
}
