// The phase step of the carrier loop, from the bits of the frequency: the specification names shifts and masks for it, in place of a product in f64.
#![tactic(auto)]

ghost use Rattle.std.specs.Prelude.{◌≡◌, ◌*◌, ◌%◌, ◌^◌, ◌<◌, ◌≤◌, cond};
ghost use Rattle.definition.specs.Phase.{phase_step};
ghost use Rattle.costas_step.specs.HalfUp.{half_up};

// The low 32 bits of sig * 2^(exp - 118) rounded to a whole number: a half goes up, and down for `minus`, so that it is the magnitude of a negative number
// rounded with a half up.
#[tactic(auto, using(crate::proofs::Steps::far, crate::proofs::Steps::whole, crate::proofs::Steps::part))]
fn magnitude(exp: u32, sig: u32, minus: bool) -> u32
    requires { (94 ≤ exp) × (1 ≤ sig) × (sig < 2 ^ 24) }
    ensures { result ≡ half_up (cond minus 1 0) (sig * 2 ^ exp) (2 ^ 118) % 2 ^ 32 }
{
    match exp {
        0..=140 => {
            // 39 digits more, so that one shift down serves every exponent: the floor of twice the number, one more, and half of that
            let s = u64::from(sig) << 39;
            let q = (s - u64::from(minus)) >> (156 - exp);
            (((q + 1) >> 1) & 0xffff_ffff) as u32
        }
        141..=149 => sig << (exp - 118),
        _ => 0,
    }
}

// The phase step floor(v * 2^32 + 1/2), held to an i64, low 32 bits, from the bits of v. A NaN gives 0.
#[tactic(auto, using(crate::proofs::Steps::of_nan, crate::proofs::Steps::tiny, crate::proofs::Steps::huge, crate::proofs::Steps::huge_minus, crate::proofs::Steps::plain, crate::proofs::Steps::negated))]
pub fn phase_step_f32(v: f32) -> u32
    ensures { result ≡ phase_step v }
{
    if v.is_nan() {
        return 0;
    }
    let bits = v.to_bits();
    let exp = (bits >> 23) & 0xff;
    let sig = (bits & 0x7f_ffff) | 0x80_0000;
    let minus = v.is_sign_negative();
    match exp {
        0..=93 => 0,
        94..=157 => {
            let m = magnitude(exp, sig, minus);
            if minus { m.wrapping_neg() } else { m }
        }
        _ => if minus { 0 } else { u32::MAX },
    }
}
