// The calls on an equalizer that take no samples: it is made, set back to the start, and its settings are changed. Weights and window are lent, forward
// taps, then feedback taps, newest first in each.
#![tactic(auto)]

ghost use Rattle.std.specs.Prelude.{◌≡◌, ◌-◌, ◌*◌, ◌/◌, ◌≤◌, cond, length};
ghost use Rattle.definition.specs.Slices.{zeros, start_weights};
ghost use Rattle.definition.specs.Packed.{equalizer, made, reset_to, settled};
ghost use Rattle.definition.specs.Rules.{mu_fits};
ghost use Rattle.definition.specs.Calls.{set_answer, with_params, fresh_state, new_def, reset_def, set_mu_cma_def, set_mu_dd_def, set_frequency_def};

use types::{EqParams, EqualizeState, Equalized, Error};

// The start weights and a window of zeros, with the feedback taps of s.
fn start_over(w: &mut [f32], h: &mut [f32], s: EqualizeState)
    requires { (length w.old ≡ 2 * (length w.old / 2)) × ((length h.old ≡ 2 * (length w.old / 2)) × (1 ≤ length w.old / 2 - s.params.feedback_taps)) }
    ensures { (w.new ≡ start_weights (length w.old / 2) ((length w.old / 2 - s.params.feedback_taps) / 2)) × (h.new ≡ zeros (2 * (length w.old / 2))) }
{
    let taps = s.taps(w);
    record_start::start_weights(w, taps);
    h.fill(0.0);
}

// The record at the start, with the gains of its bandwidth.
#[tactic(auto, unfolding(definition::specs::Calls::fresh_state, definition::specs::Gains::loop_gains))]
fn fresh_state(params: EqParams) -> EqualizeState
    ensures { result ≡ fresh_state params }
{
    let gains = costas::loop_gains(params.phase_bw, costas::PHASE_DAMPING);
    EqualizeState::fresh(params, gains)
}

// A new equalizer: weights and window are set, and the record is returned. Refusals 1 to 7 leave both as they were.
#[tactic(auto, unfolding(definition::specs::Calls::new_def, definition::specs::Calls::start_over, definition::specs::Calls::fresh_state, types::specs::Start::start_state), using(crate::proofs::Starts::new_fits))]
pub fn new(
    weights: &mut [f32],
    window: &mut [f32],
    params: EqParams,
) -> Result<EqualizeState, Error>
    ensures { made result weights.new window.new ≡ new_def params weights.old window.old }
{
    record_verdict::new_verdict(params, weights.len(), window.len())?;
    let s = fresh_state(params);
    start_over(weights, window, s);
    Ok(s)
}

// Back to the start, with the settings and gains kept. Refusals 1 and 8.
#[tactic(auto, unfolding(definition::specs::Calls::reset_def, definition::specs::Calls::start_over, types::specs::Start::start_state), using(crate::proofs::Starts::reset_fits))]
pub fn reset(state: EqualizeState, weights: &mut [f32], window: &mut [f32]) -> Equalized
    ensures { reset_to result weights.new window.new ≡ reset_def (equalizer state weights.old window.old) }
{
    if let Err(e) = record_verdict::reset_verdict(state, weights, window) {
        return Equalized::refused(state, e);
    }
    let s = EqualizeState::fresh(state.params, state.phase_gains());
    start_over(weights, window, s);
    Equalized::served(s)
}

// The record with the settings `params`, in which one step size is mu; or the refusal, where mu is out of range.
fn set_mu(state: EqualizeState, mu: f32, refusal: Error, params: EqParams) -> Equalized
    ensures { settled result ≡ cond (mu_fits mu) (set_answer (Ok tt) (with_params state params)) (set_answer (Err refusal) state) }
{
    if record_rules::check_mu(mu) {
        Equalized::served(EqualizeState { params, ..state })
    } else {
        Equalized::refused(state, refusal)
    }
}

// Another step size for Cma, 0.00001 to 1; else refusal 5.
#[tactic(auto, unfolding(definition::specs::Calls::set_mu_cma_def))]
pub fn set_mu_cma(state: EqualizeState, mu: f32) -> Equalized
    ensures { settled result ≡ set_mu_cma_def state mu }
{
    let params = EqParams {
        mu_cma: mu,
        ..state.params
    };
    set_mu(state, mu, Error::MuCma, params)
}

// Another step size for Decision; else refusal 6.
#[tactic(auto, unfolding(definition::specs::Calls::set_mu_dd_def))]
pub fn set_mu_dd(state: EqualizeState, mu: f32) -> Equalized
    ensures { settled result ≡ set_mu_dd_def state mu }
{
    let params = EqParams {
        mu_dd: mu,
        ..state.params
    };
    set_mu(state, mu, Error::MuDd, params)
}

// The tracker's frequency from outside: flushed, held to its limit, and 0 for a NaN. Never refused.
#[tactic(auto, unfolding(definition::specs::Calls::set_frequency_def, definition::specs::Calls::held_freq))]
pub fn set_frequency(state: EqualizeState, freq: f32) -> EqualizeState
    ensures { result ≡ set_frequency_def state freq }
{
    let freq = if freq.is_nan() {
        0.0
    } else {
        costas::integrate(freq, EqualizeState::PHASE_MAX_FREQ)
    };
    EqualizeState { freq, ..state }
}
