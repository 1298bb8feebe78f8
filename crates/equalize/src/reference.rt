// The plain path.
ghost use Rattle.definition.specs.Packed.{equalizer, answered};
ghost use Rattle.definition.specs.Paths.{plain, Promised};

use types::{EqualizeState, Equalized};

// A block of samples by the plain path, or a refusal that leaves all as it was. Beside `equalize` it has another path and nothing else: by one function of both,
// with an enum for the path, a call of one sample and 11 taps took 283 ns, and 265 so; with a closure for it, all that a path asks would stand in one contract more.
#[tactic(auto, unfolding(definition::specs::Calls::equalize_def), using(crate::proofs::Calls::call_shaped, crate::proofs::Calls::call_served))]
pub fn equalize(
    state: EqualizeState,
    weights: &mut [f32],
    window: &mut [f32],
    input: &[f32],
    output: &mut [f32],
    marks: &mut [u8],
    numbers: &mut [u8],
) -> Equalized
    ensures { Promised plain (equalizer state weights.old window.old) input.now output.old marks.old numbers.old
        (answered result weights.new window.new output.new marks.new numbers.new) }
{
    if let Err(e) = record_verdict::verdict(
        state,
        weights,
        window,
        input.len(),
        output.len(),
        marks.len(),
        numbers.len(),
    ) {
        return Equalized::refused(state, e);
    }
    Equalized::served(plain::block(state, weights, window, input, output, marks, numbers))
}
