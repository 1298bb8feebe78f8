// The switch from Cma to Decision.
#![tactic(auto)]

ghost use Rattle.std.specs.Prelude.{◌≡◌, true};
ghost use Rattle.definition.specs.Sample.{advance as advanceDef};
ghost use Rattle.definition.specs.Rules.{rule_r4};

use types::{EqMode, EqParams, EqualizeState};

// The count and the mode after a sample. R4 is asked here, and is no invariant of the record: that goes by value with free fields, as the specification
// has it, and a call tests it.
#[tactic(auto, unfolding(definition::specs::Sample::advance, definition::specs::Sample::advance_in), using(crate::proofs::Counts::count_below))]
pub fn advance(s: EqualizeState) -> EqualizeState
    requires { rule_r4 s ≡ true }
    ensures { result ≡ advanceDef s }
{
    let total = s.params.cma_symbols;
    match s.mode {
        EqMode::Decision => s,
        EqMode::Cma if total == EqParams::NEVER_SWITCH => s,
        EqMode::Cma => {
            let count = s.count + 1;
            let mode = if count < total {
                EqMode::Cma
            } else {
                EqMode::Decision
            };
            EqualizeState { mode, count, ..s }
        }
    }
}
