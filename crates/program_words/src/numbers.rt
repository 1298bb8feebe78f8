// Numbers in options. A real number is an optional sign, digits with at most one point, and an optional exponent; at most 15 digits count, and
// the point may be moved by at most 22 places. So the digits and the power of ten are exact in an f64, and the one product or quotient is the
// f64 nearest to what was written. A setting that is an f32 is that f64 rounded again: the f32 nearest to what was written, for up to 12 decimals.
// No `parse`: a u64's takes `+7`, and whole_of promises that it takes none; an f64's takes `inf`, `nan` and any number of digits, so that each number
// would be read twice, once for its form.
ghost use Rattle.std.specs.Prelude.{◌≡◌, ◌+◌, ◌-◌, ◌*◌, min, drop};
ghost use Rattle.program_words.specs.Wholes.{too_long, with_digit, DigitsFrom, whole_of};

use std::ops::Neg;

// From here on the digits are too many.
const TOO_LONG: u64 = 1_000_000_000_000_000;

const POWERS: [f64; 23] = [
    1e0, 1e1, 1e2, 1e3, 1e4, 1e5, 1e6, 1e7, 1e8, 1e9, 1e10, 1e11, 1e12, 1e13, 1e14, 1e15, 1e16,
    1e17, 1e18, 1e19, 1e20, 1e21, 1e22,
];

// Digits: their value behind what came before, how many there are, and what stands behind them.
#[derive(Clone, Copy)]
struct Digits<'a> {
    value: u64,
    count: usize,
    rest: &'a [u8],
}

#[tactic(auto, unfolding(crate::specs::Wholes::with_digit))]
fn with_digit(value: u64, b: u8) -> u64
    ensures { result ≡ with_digit value b }
{
    if value < TOO_LONG {
        value * 10 + u64::from(b.saturating_sub(b'0'))
    } else {
        value
    }
}

// The digits that a text starts with.
fn digits_of(t: &[u8], start: u64) -> Digits<'_>
    ensures digits { DigitsFrom t.now 0 start result.value result.count result.count }
    ensures rest { result.rest.now ≡ drop result.count t.now }
{
    let count = t
        .iter()
        .position(|b| !b.is_ascii_digit())
        .unwrap_or(t.len());
    let (digits, rest) = t.split_at(count);
    let value = digits.iter().fold(start, |value, b| with_digit(value, *b));
    Digits { value, count, rest }
}

// A whole number up to `most` and below 10^15.
#[tactic(auto, unfolding(crate::specs::Wholes::whole_of))]
pub fn whole_of(t: &[u8], most: u64) -> Option<u64>
    ensures { result ≡ whole_of t.now most }
{
    let d = digits_of(t, 0);
    if d.count == 0 || d.count != t.len() || d.value >= TOO_LONG || d.value > most {
        return None;
    }
    Some(d.value)
}

// The sign of a number: a plus where none is written.
#[derive(Clone, Copy)]
enum Sign {
    Plus,
    Minus,
}

impl Sign {
    // The sign that a text starts with, and what stands behind it.
    fn of(t: &[u8]) -> (Sign, &[u8]) {
        match t {
            [b'-', rest @ ..] => (Sign::Minus, rest),
            [b'+', rest @ ..] => (Sign::Plus, rest),
            _ => (Sign::Plus, t),
        }
    }

    // A number with this sign.
    fn on<N: Neg<Output = N>>(self, n: N) -> N
        requires { N.Neg.can_neg n }
    {
        match self {
            Sign::Plus => n,
            Sign::Minus => -n,
        }
    }
}

// The power of ten that an exponent stands for, which is all of the text; none is 0.
fn exponent_of(t: &[u8]) -> Option<i64> {
    let [b'e' | b'E', rest @ ..] = t else {
        return t.is_empty().then_some(0);
    };
    let (sign, rest) = Sign::of(rest);
    let d = digits_of(rest, 0);
    if d.count == 0 || !d.rest.is_empty() {
        return None;
    }
    let e = i64::try_from(d.value).ok()?;
    Some(sign.on(e))
}

// m * 10^power.
fn scaled(m: u64, power: i64) -> Option<f64> {
    let k = usize::try_from(power.unsigned_abs()).ok()?;
    let tens = POWERS.get(k)?;
    let v = std::num::nearest_u64_to_f64(m);
    Some(if power < 0 { v / *tens } else { v * *tens })
}

pub fn real_of(t: &[u8]) -> Option<f64> {
    let (sign, t) = Sign::of(t);
    let front = digits_of(t, 0);
    let (places, all) = match front.rest {
        [b'.', rest @ ..] => {
            let back = digits_of(rest, front.value);
            (back.count, back)
        }
        _ => (0, front),
    };
    if (front.count == 0 && places == 0) || all.value >= TOO_LONG {
        return None;
    }
    let power = exponent_of(all.rest)?.saturating_sub(i64::try_from(places).ok()?);
    let v = scaled(all.value, power)?;
    Some(sign.on(v))
}
