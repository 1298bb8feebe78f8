// The quick path and the joint path, called: the taps are counted.
#![tactic(auto)]

ghost use Rattle.definition.specs.Slices.{samples_of};
ghost use Rattle.definition.specs.Packed.{equalizer, Ran, ServedBlock};
ghost use Rattle.definition.specs.Run.{run_def};

use types::EqualizeState;

// A block of samples of an accepted record.
pub fn equalize_linear(
    state: EqualizeState,
    weights: &mut [f32],
    window: &mut [f32],
    input: &[f32],
    output: &mut [f32],
    marks: &mut [u8],
    numbers: &mut [u8],
) -> EqualizeState
    requires { ServedBlock (equalizer state weights.old window.old) input.now output.old marks.old numbers.old }
    ensures { Ran (run_def (equalizer state weights.old window.old) (samples_of input.now))
        (equalizer result weights.new window.new) output.new marks.new numbers.new }
{
    let m = state.params.feedback_taps;
    let n = state.taps(weights);
    run_block::linear_state(state, weights, window, input, output, marks, numbers, n, m)
}
