// The equalizer for C and Rust: the exported functions of `capi`. Slices cross as pointer and length.
// Each call of `capi` once more, with its clauses: a static library exports functions of its own alone, and `capi`, on which `capi_demands` stands, has to be a library.
#![tactic(auto)]

ghost use Rattle.std.specs.Prelude.{◌≡◌};
ghost use Rattle.capi_state.specs.Raw.{filter, new_raw, reset_raw, set_mu_cma_raw, set_mu_dd_raw, set_frequency_raw};
ghost use Rattle.capi.specs.Raw.{block, eq_reference, eq_equalize, PromisedRaw};

use capi_numbers::{EqRecord, EqReply, EqSettings};

// A new equalizer: weights and window are set. Refusals 1 to 8; the record is then all zeros.
#[unsafe(no_mangle)]
pub extern "C" fn eq_new(settings: EqSettings, weights: &mut [f32], window: &mut [f32]) -> EqReply
    ensures { filter result weights.new window.new ≡ new_raw settings weights.old window.old }
{
    capi::eq_new(settings, weights, window)
}

// Back to the start, with the settings and gains kept. Refusals 1 and 8.
#[unsafe(no_mangle)]
pub extern "C" fn eq_reset(raw: EqRecord, weights: &mut [f32], window: &mut [f32]) -> EqReply
    ensures { filter result weights.new window.new ≡ reset_raw raw weights.old window.old }
{
    capi::eq_reset(raw, weights, window)
}

// Another step size for Cma. Refusals 5, and 8 for an unknown number.
#[unsafe(no_mangle)]
pub extern "C" fn eq_set_mu_cma(raw: EqRecord, mu: f32) -> EqReply
    ensures { result ≡ set_mu_cma_raw raw mu }
{
    capi::eq_set_mu_cma(raw, mu)
}

// Another step size for Decision. Refusals 6, and 8 for an unknown number.
#[unsafe(no_mangle)]
pub extern "C" fn eq_set_mu_dd(raw: EqRecord, mu: f32) -> EqReply
    ensures { result ≡ set_mu_dd_raw raw mu }
{
    capi::eq_set_mu_dd(raw, mu)
}

// The tracker's frequency from outside. Refusal 8 for an unknown number.
#[unsafe(no_mangle)]
pub extern "C" fn eq_set_frequency(raw: EqRecord, freq: f32) -> EqReply
    ensures { result ≡ set_frequency_raw raw freq }
{
    capi::eq_set_frequency(raw, freq)
}

// A block of samples: in runs, the quick path without feedback taps and the joint path with them, or sample by sample where it is short. Same answer as `eq_reference`.
#[unsafe(no_mangle)]
pub extern "C" fn eq_equalize(
    raw: EqRecord,
    weights: &mut [f32],
    window: &mut [f32],
    input: &[f32],
    output: &mut [f32],
    marks: &mut [u8],
    numbers: &mut [u8],
) -> EqReply
    ensures { PromisedRaw eq_equalize raw weights.old window.old input.now output.old marks.old numbers.old
        (block result weights.new window.new output.new marks.new numbers.new) }
{
    capi::eq_equalize(raw, weights, window, input, output, marks, numbers)
}

// A block of samples by the plain path. Refusals 1, 8, 9, 10 and 13.
#[unsafe(no_mangle)]
pub extern "C" fn eq_reference(
    raw: EqRecord,
    weights: &mut [f32],
    window: &mut [f32],
    input: &[f32],
    output: &mut [f32],
    marks: &mut [u8],
    numbers: &mut [u8],
) -> EqReply
    ensures { PromisedRaw eq_reference raw weights.old window.old input.now output.old marks.old numbers.old
        (block result weights.new window.new output.new marks.new numbers.new) }
{
    capi::eq_reference(raw, weights, window, input, output, marks, numbers)
}
