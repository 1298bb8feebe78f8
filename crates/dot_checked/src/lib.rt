// The complex filter sum of two slices of one length, or why there is none.
#![tactic(auto)]

ghost use Rattle.std.specs.Prelude.{◌≡◌, ◌≢◌, ◌/◌, ◌%◌, MatchResult};
ghost use Rattle.dot_checked.specs.Dot.{dot_def};

use types::C32;

// Why there is no sum. Lengths are in complex numbers.
#[derive(Clone, Copy, Debug, PartialEq, Eq)]
pub enum DotError {
    LengthMismatch { expected: usize, got: usize },
    Odd,
}

// How many complex numbers a slice of n f32 holds.
fn numbers(n: usize) -> Result<usize, DotError>
    ensures { MatchResult result (λ k. (n % 2 ≡ 0) × (k ≡ n / 2)) (λ e. (n % 2 ≢ 0) × (e ≡ DotError.Odd)) }
{
    if n % 2 != 0 {
        return Err(DotError::Odd);
    }
    Ok(n / 2)
}

// The sum over two slices of one length.
#[tactic(auto, unfolding(crate::specs::Dot::dot_def))]
pub fn dot_complex(x: &[f32], w: &[f32]) -> Result<C32, DotError>
    ensures { result ≡ dot_def x.now w.now }
{
    let expected = numbers(x.len())?;
    let got = numbers(w.len())?;
    if expected != got {
        return Err(DotError::LengthMismatch { expected, got });
    }
    Ok(dot::dot_complex_c32(x, w))
}
