// The weights at the start.
#![tactic(auto)]

ghost use Rattle.std.specs.Prelude.{◌≡◌, ◌*◌, ◌/◌, ◌≤◌, length};
ghost use Rattle.definition.specs.Slices.{start_weights};

// The start weights, with so many forward taps: the centre one at 1, the others at 0.
#[tactic(auto, using(definition_laws::proofs::Mapped::start_is))]
pub fn start_weights(w: &mut [f32], taps: usize)
    requires { (length w.old ≡ 2 * (length w.old / 2)) × ((1 ≤ taps) × (taps ≤ length w.old / 2)) }
    ensures { w.new ≡ start_weights (length w.old / 2) (taps / 2) }
{
    w.fill(0.0);
    let j = 2 * (taps / 2);
    w[j] = 1.0;
}
