// The equalizer with the record as numbers, by value: what `capi_c` exports for C and Rust.
#![tactic(auto)]

ghost use Rattle.std.specs.Prelude.{◌≡◌};
ghost use Rattle.capi.specs.Raw.{block, equalize_raw, eq_reference, eq_equalize, AsDefined, PromisedRaw};

use capi_numbers::{EqRecord, EqReply};
pub use capi_state::{
    new as eq_new, reset as eq_reset, set_frequency as eq_set_frequency,
    set_mu_cma as eq_set_mu_cma, set_mu_dd as eq_set_mu_dd,
};
use types::{EqualizeState, Equalized};

// A block of samples by one of the two calls; a record with an unknown number is refused, with 1 where a slice is odd, else 8.
#[tactic(auto, unfolding(crate::specs::Raw::equalize_raw), using(crate::proofs::Laws::block_known, capi_numbers::proofs::Facts::record_err))]
fn call<E>(
    raw: EqRecord,
    weights: &mut [f32],
    window: &mut [f32],
    input: &[f32],
    output: &mut [f32],
    marks: &mut [u8],
    numbers: &mut [u8],
    equalize: E,
) -> EqReply
where
    E: FnOnce(
        EqualizeState,
        &mut [f32],
        &mut [f32],
        &[f32],
        &mut [f32],
        &mut [u8],
        &mut [u8],
    ) -> Equalized,
    requires callable { E.IsAlwaysCallable equalize }
    requires defined { AsDefined (E.post equalize) }
    ensures { block result weights.new window.new output.new marks.new numbers.new
        ≡ equalize_raw raw weights.old window.old input.now output.old marks.old numbers.old }
{
    let Ok(state) = EqualizeState::try_from(raw) else {
        let evens = record_verdict::all_even(
            weights.len(),
            window.len(),
            input.len(),
            output.len(),
        );
        return EqReply::unknown(raw, evens);
    };
    EqReply::from(equalize(state, weights, window, input, output, marks, numbers))
}

// A block of samples: in runs, the quick path without feedback taps and the joint path with them, or sample by sample where it is short. Same answer as `eq_reference`.
pub fn eq_equalize(
    raw: EqRecord,
    weights: &mut [f32],
    window: &mut [f32],
    input: &[f32],
    output: &mut [f32],
    marks: &mut [u8],
    numbers: &mut [u8],
) -> EqReply
    ensures { PromisedRaw eq_equalize raw weights.old window.old input.now output.old marks.old numbers.old
        (block result weights.new window.new output.new marks.new numbers.new) }
{
    call(
        raw,
        weights,
        window,
        input,
        output,
        marks,
        numbers,
        equalize::equalize,
    )
}

// A block of samples by the plain path. Refusals 1, 8, 9, 10 and 13.
pub fn eq_reference(
    raw: EqRecord,
    weights: &mut [f32],
    window: &mut [f32],
    input: &[f32],
    output: &mut [f32],
    marks: &mut [u8],
    numbers: &mut [u8],
) -> EqReply
    ensures { PromisedRaw eq_reference raw weights.old window.old input.now output.old marks.old numbers.old
        (block result weights.new window.new output.new marks.new numbers.new) }
{
    call(
        raw,
        weights,
        window,
        input,
        output,
        marks,
        numbers,
        equalize::reference::equalize,
    )
}
