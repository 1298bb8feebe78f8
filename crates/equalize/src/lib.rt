// A block of samples through the adaptive equalizer. Samples are interleaved f32, real part first; weights and window are lent, forward taps, then
// feedback taps, newest first in each.
#![tactic(auto)]

use types::{EqualizeState, Equalized};

pub mod reference;

ghost use Rattle.definition.specs.Slices.{samples_of};
ghost use Rattle.definition.specs.Packed.{equalizer, answered, ServedBlock, Ran};
ghost use Rattle.definition.specs.Run.{run_def};
ghost use Rattle.definition.specs.Paths.{by_taps, Promised};

// The least block that goes in runs, without feedback taps; a shorter one goes sample by sample. A matter of speed alone, since both ways give the same:
// a run has a start to pay, which takes the more samples to earn back the fewer the taps are (docs/PERFORMANCE.md). A match: a table would have the same rows, and
// a search beside them.
fn quick_from(taps: usize) -> usize {
    match taps {
        0..=4 => 56,
        5..=6 => 40,
        7..=8 => 24,
        9..=10 => 32,
        11..=12 => 24,
        13..=20 => 20,
        21..=30 => 16,
        31..=62 => 12,
        _ => 8,
    }
}

// The same with feedback taps, by all taps: they have arrays of their own in a run, where the plain path sums over both at once.
fn joint_from(taps: usize) -> usize {
    match taps {
        0..=5 => 512,
        6 => 96,
        7 => 64,
        8..=9 => 160,
        10 => 72,
        11 => 48,
        12..=13 => 32,
        14..=15 => 28,
        16..=18 => 32,
        19..=20 => 24,
        21..=26 => 20,
        27..=36 => 16,
        37..=52 => 12,
        _ => 8,
    }
}

// Whether a block of `len` samples goes in runs. With 3 + 1 taps none does: the plain path is faster at any length.
fn by_runs(taps: usize, feedback: usize, len: usize) -> bool {
    match feedback {
        _ if len < 8 => false,
        0 => len >= quick_from(taps),
        _ => taps != 4 && len >= joint_from(taps),
    }
}

// What a path asks and promises of a block stands in its own contract and again in `equalize_paths`, which only picks one: a struct of record and slices would
// be built here and taken apart there, since the public paths keep their parameters.

// The samples of an accepted call: the quick path without feedback taps, the joint path with them, both in runs of 64, or, for a short block, the plain path.
fn equalize_paths(
    state: EqualizeState,
    weights: &mut [f32],
    window: &mut [f32],
    input: &[f32],
    output: &mut [f32],
    marks: &mut [u8],
    numbers: &mut [u8],
) -> EqualizeState
    requires { ServedBlock (equalizer state weights.old window.old) input.now output.old marks.old numbers.old }
    ensures { Ran (run_def (equalizer state weights.old window.old) (samples_of input.now))
        (equalizer result weights.new window.new) output.new marks.new numbers.new }
{
    if by_runs(weights.len() / 2, state.params.feedback_taps, marks.len()) {
        run_linear::equalize_linear(state, weights, window, input, output, marks, numbers)
    } else {
        plain::block(state, weights, window, input, output, marks, numbers)
    }
}

// A block of samples, or a refusal (1, 8, 9, 10, 13) that leaves all as it was. Same answer as `reference::equalize`.
#[tactic(auto, unfolding(definition::specs::Calls::equalize_def), using(crate::proofs::Calls::call_shaped, crate::proofs::Calls::call_served))]
pub fn equalize(
    state: EqualizeState,
    weights: &mut [f32],
    window: &mut [f32],
    input: &[f32],
    output: &mut [f32],
    marks: &mut [u8],
    numbers: &mut [u8],
) -> Equalized
    ensures { Promised (by_taps (equalizer state weights.old window.old)) (equalizer state weights.old window.old) input.now output.old marks.old numbers.old
        (answered result weights.new window.new output.new marks.new numbers.new) }
{
    if let Err(e) = record_verdict::verdict(
        state,
        weights,
        window,
        input.len(),
        output.len(),
        marks.len(),
        numbers.len(),
    ) {
        return Equalized::refused(state, e);
    }
    Equalized::served(equalize_paths(state, weights, window, input, output, marks, numbers))
}
