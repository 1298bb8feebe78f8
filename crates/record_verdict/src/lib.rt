// Whether a call is served: the first test that fails says why not.
#![tactic(auto)]

ghost use Rattle.std.specs.Prelude.{◌≡◌, ◌&&◌, ◌++◌, length, cond, Ok, Err};
ghost use Rattle.definition.specs.Refusals.{first_of};
ghost use Rattle.definition.specs.Packed.{equalizer};
ghost use Rattle.definition.specs.Rules.{rules as rulesDef};
ghost use Rattle.definition.specs.Calls.{even, tap_tests, setting_tests, new_verdict, reset_verdict, verdict_def};

use types::{EqParams, EqualizeState, Error};

// Ok, or the refusal e.
fn ensure(holds: bool, e: Error) -> Result<(), Error>
    ensures { result ≡ cond holds (Ok tt) (Err e) }
{
    holds.then_some(()).ok_or(e)
}

// Test 1 of one slice.
fn even(n: usize) -> bool
    ensures { result ≡ even n }
{
    n % 2 == 0
}

// Test 1 of weights and window.
pub fn both_even(lw: usize, lh: usize) -> bool
    ensures { result ≡ (even lw && even lh) }
{
    even(lw) & even(lh)
}

// Test 1 of all four slices.
pub fn all_even(lw: usize, lh: usize, xs: usize, ys: usize) -> bool
    ensures { result ≡ (even lw && even lh && even xs && even ys) }
{
    both_even(lw, lh) & even(xs) & even(ys)
}

// Tests 5 to 7: the settings.
#[tactic(auto, unfolding(definition::specs::Refusals::first_of))]
fn settings_verdict(p: EqParams) -> Result<(), Error>
    ensures { result ≡ first_of (setting_tests p) }
{
    ensure(record_rules::check_mu(p.mu_cma), Error::MuCma)?;
    ensure(record_rules::check_mu(p.mu_dd), Error::MuDd)?;
    ensure(record_rules::bw_fits(p.phase_bw), Error::Bandwidth)
}

// Tests 2 to 7: the taps, then the settings.
#[tactic(auto, unfolding(definition::specs::Refusals::first_of))]
fn taps_verdict(p: EqParams, lw: usize, lh: usize) -> Result<(), Error>
    ensures { result ≡ first_of (tap_tests p lw lh ++ setting_tests p) }
{
    let len = lw / 2;
    let got = lh / 2;
    let m = p.feedback_taps;
    ensure(record_rules::feedback_fits(m), Error::Feedback)?;
    ensure(record_rules::taps_fit(len.saturating_sub(m)), Error::Taps)?;
    ensure(got == len, Error::Window { expected: len, got })?;
    settings_verdict(p)
}

// Tests 1 to 7 of new, by the lengths of weights and window.
#[tactic(auto, unfolding(definition::specs::Refusals::first_of, definition::specs::Calls::new_verdict, definition::specs::Calls::new_tests))]
pub fn new_verdict(p: EqParams, lw: usize, lh: usize) -> Result<(), Error>
    ensures { result ≡ new_verdict p lw lh }
{
    ensure(both_even(lw, lh), Error::Odd)?;
    taps_verdict(p, lw, lh)
}

// Tests 1 and 8 of reset.
#[tactic(auto, unfolding(definition::specs::Refusals::first_of, definition::specs::Calls::reset_verdict))]
pub fn reset_verdict(s: EqualizeState, w: &[f32], h: &[f32]) -> Result<(), Error>
    ensures { result ≡ reset_verdict (equalizer s w.now h.now) }
{
    ensure(both_even(w.len(), h.len()), Error::Odd)?;
    let holds = record_rules::rule_r1(s, w, h) & record_rules::rule_r2(s);
    ensure(holds, Error::Record)
}

// Tests 1, 8, 9, 10 and 13 of equalizing, by the lengths of input, output, marks and numbers: four numbers and no slices, so that any lengths can be asked of, and no
// struct, which both callers would make for this call alone.
#[tactic(auto, unfolding(definition::specs::Refusals::first_of, definition::specs::Calls::verdict_def, definition::specs::Calls::equalize_tests))]
pub fn verdict(
    s: EqualizeState,
    w: &[f32],
    h: &[f32],
    xs: usize,
    ys: usize,
    ms: usize,
    ns: usize,
) -> Result<(), Error>
    ensures { result ≡ verdict_def (rulesDef (equalizer s w.now h.now))
        (record { weights = length w.now; window = length h.now; input = xs; output = ys; marks = ms; numbers = ns }) }
{
    ensure(all_even(w.len(), h.len(), xs, ys), Error::Odd)?;
    ensure(record_rules::rules(s, w, h), Error::Record)?;
    let expected = xs / 2;
    let got = ys / 2;
    ensure(got == expected, Error::Output { expected, got })?;
    ensure(ms == expected, Error::Marks { expected, got: ms })?;
    ensure(ns == expected, Error::Numbers)
}
