// The calls of C that take no samples, from the record as numbers; `capi` has them among its own.
#![tactic(auto)]

ghost use Rattle.std.specs.Prelude.{◌≡◌, true, ◌&&◌, cond, length};
ghost use Rattle.definition.specs.Packed.{settled};
ghost use Rattle.definition.specs.Calls.{even, SetAnswer};
ghost use Rattle.capi_numbers.specs.RawRecord.{known_record, record_in, replied, unknown as unknownDef};
ghost use Rattle.capi_state.specs.Raw.{filter, set_out, new_raw, reset_raw, set_mu_cma_raw, set_mu_dd_raw, set_frequency_raw};

use capi_numbers::{EqRecord, EqReply, EqSettings};
use types::{EqParams, EqualizeState, Equalized};

// Each promise stands here and in `capi_c`: an exported function says its own.

// The reply of a call that takes weights and window to an unknown number: 1 where one is odd, else 8.
fn unknown(record: EqRecord, weights: &[f32], window: &[f32]) -> EqReply
    ensures { result ≡ replied «record» (unknownDef (even (length weights.now) && even (length window.now))) }
{
    EqReply::unknown(
        record,
        record_verdict::both_even(weights.len(), window.len()),
    )
}

// A new equalizer: weights and window are set. Refusals 1 to 8; the record is then all zeros.
#[tactic(auto, unfolding(crate::specs::Raw::new_raw), using(capi_numbers::proofs::Facts::settings_ok, capi_numbers::proofs::Facts::settings_err))]
pub fn new(settings: EqSettings, weights: &mut [f32], window: &mut [f32]) -> EqReply
    ensures { filter result weights.new window.new ≡ new_raw settings weights.old window.old }
{
    let Ok(params) = EqParams::try_from(settings) else {
        return unknown(EqRecord::none(), weights, window);
    };
    EqReply::from(equalize_state::new(weights, window, params))
}

// Back to the start, with the settings and gains kept. Refusals 1 and 8.
#[tactic(auto, unfolding(crate::specs::Raw::reset_raw), using(crate::proofs::Laws::reset_known, capi_numbers::proofs::Facts::record_err))]
pub fn reset(raw: EqRecord, weights: &mut [f32], window: &mut [f32]) -> EqReply
    ensures { filter result weights.new window.new ≡ reset_raw raw weights.old window.old }
{
    let Ok(state) = EqualizeState::try_from(raw) else {
        return unknown(raw, weights, window);
    };
    EqReply::from(equalize_state::reset(state, weights, window))
}

// The reply of a setter to the numbers of a record; 8 where one is unknown.
#[tactic(auto, using(capi_numbers::proofs::Facts::record_ok, crate::proofs::Laws::set_unknown))]
fn set<F: FnOnce(EqualizeState) -> Equalized>(raw: EqRecord, setter: F) -> EqReply
    requires { F.IsAlwaysCallable setter }
    ensures { (a : SetAnswer) → ((e : _) → F.post setter (record_in raw) e → settled e ≡ a)
        → result ≡ cond (known_record raw) (set_out a) (replied raw (unknownDef true)) }
{
    let Ok(state) = EqualizeState::try_from(raw) else {
        return EqReply::unknown(raw, true);
    };
    EqReply::from(setter(state))
}

// Another step size for Cma. Refusals 5, and 8 for an unknown number.
#[tactic(auto, unfolding(crate::specs::Raw::set_mu_cma_raw))]
pub fn set_mu_cma(raw: EqRecord, mu: f32) -> EqReply
    ensures { result ≡ set_mu_cma_raw raw mu }
{
    set(raw, |state| equalize_state::set_mu_cma(state, mu))
}

// Another step size for Decision. Refusals 6, and 8 for an unknown number.
#[tactic(auto, unfolding(crate::specs::Raw::set_mu_dd_raw))]
pub fn set_mu_dd(raw: EqRecord, mu: f32) -> EqReply
    ensures { result ≡ set_mu_dd_raw raw mu }
{
    set(raw, |state| equalize_state::set_mu_dd(state, mu))
}

// The tracker's frequency from outside. Refusal 8 for an unknown number.
#[tactic(auto, unfolding(crate::specs::Raw::set_frequency_raw))]
pub fn set_frequency(raw: EqRecord, freq: f32) -> EqReply
    ensures { result ≡ set_frequency_raw raw freq }
{
    set(raw, |state| {
        Equalized::served(equalize_state::set_frequency(state, freq))
    })
}
