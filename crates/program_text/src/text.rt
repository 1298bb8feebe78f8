// Text on its way out: a page, from its start on. What finds no room is left out.
ghost use Rattle.std.specs.Prelude.{◌≡◌, ℕ, ◌-◌, ◌≤◌, List, [], ◌∷◌, length, take};
ghost use Rattle.program_text.specs.Pages.{written, LaidBehind, numeral, entry_of};

use arrayvec::ArrayVec;
use std::fmt;
use std::fmt::Write;
use std::marker::Model;

// A page of N bytes.
#[derive(Drop)]
pub struct Page<const N: usize> {
    bytes: ArrayVec<u8, N>,
}

// Clauses see what stands on the page.
impl<const N: usize> Model for Page<N> {
    ghost Value = { List ℕ };

    ghost view = { λ p. p.bytes.items };
}

impl<const N: usize> Page<N> {
    // An empty page.
    pub fn new() -> Self
        ensures { result ≡ [] }
    {
        Page {
            bytes: ArrayVec::new(),
        }
    }

    pub fn clear(&mut self)
        ensures { self.new ≡ [] }
    {
        self.bytes.clear();
    }

    // How many bytes find room.
    pub fn room(&self) -> usize
        ensures { result ≡ N - length self.now }
    {
        self.bytes.remaining_capacity()
    }

    // What stands on the page.
    pub fn bytes(&self) -> &[u8]
        ensures { result.now ≡ self.now }
    {
        self.bytes.as_slice()
    }

    // Writes a text behind what stands on the page, as far as there is room.
    #[tactic(auto, using(crate::proofs::Laying::laid_is, crate::proofs::Laying::room_for, crate::proofs::Laying::laid_behind))]
    pub fn words(&mut self, t: &[u8])
        ensures appended { self.new ≡ written N self.old t.now }
        ensures laid { LaidBehind N self.old t.now self.new }
    {
        let n = t.len().min(self.bytes.remaining_capacity());
        let _ = self.bytes.try_extend_from_slice(&t[..n]);
    }

    // Writes a byte behind what stands on the page, where there is room. For blanks, line ends and single digits: by `words`, which copies a slice, a line of two
    // zeros, a mark and a number took 424 instructions and not 233.
    #[tactic(auto, using(crate::proofs::Laying::byte_is, crate::proofs::Laying::no_room, crate::proofs::Laying::laid_behind))]
    pub fn byte(&mut self, b: u8)
        ensures appended { self.new ≡ written N self.old (b ∷ []) }
        ensures laid { LaidBehind N self.old (b ∷ []) self.new }
    {
        let _ = self.bytes.try_push(b);
    }

    // The text of a number in a list of texts with a line end behind each, counted from 0. The program here prints none; what it promises stays.
    pub fn entry(&mut self, list: &[u8], number: usize)
        ensures appended { self.new ≡ written N self.old (entry_of list.now number) }
        ensures laid { LaidBehind N self.old (entry_of list.now number) self.new }
    {
        self.words(list.split(|b| *b == b'\n').nth(number).unwrap_or(&[]));
    }

    // A number in decimal digits. No `write!`: it says what it wrote where it answers Ok, and nothing says that it does.
    #[tactic(auto, using(crate::proofs::Numerals::numeral_is, crate::proofs::Numerals::digit_is, crate::proofs::Laying::laid_behind))]
    pub fn count(&mut self, n: u64)
        ensures appended { self.new ≡ written N self.old (numeral n) }
        ensures laid { LaidBehind N self.old (numeral n) self.new }
    {
        if n < 10 {
            return self.byte(b'0' + n as u8);
        }
        let mut d = [0u8; 20];
        let k = io::decimal(n, &mut d);
        self.words(&d[..k]);
    }

    // x in scientific notation with nine digits; a zero, an infinity and a NaN are `0`, `inf` and `nan`, the first two with their sign.
    // No `{x:.8e}`: it brings a tie to the even digit, so that 1.017578125 would be 1.01757812e0 and not 1.01757813e0, and a zero is 0.00000000e0 there.
    // No match on `classify`: the sign stands before all but a NaN, which would want a test before the match.
    pub fn float(&mut self, x: f32) {
        if x.is_nan() {
            return self.words(b"nan");
        }
        if x.is_sign_negative() {
            self.byte(b'-');
        }
        if x == 0.0 {
            self.byte(b'0');
        } else if x.is_infinite() {
            self.words(b"inf");
        } else {
            self.magnitude(std::num::f32_to_f64_with_nan(x.abs()));
        }
    }

    fn magnitude(&mut self, v: f64) {
        let Scaled { digits, exponent } = nine_digits(v);
        let (first, others) = (digits / 100_000_000, digits % 100_000_000);
        let _ = write!(self, "{first}.{others:08}e{exponent}");
    }
}

// So that `write!` serves; what finds no room is no error.
impl<const N: usize> Write for Page<N> {
    ghost write_str_gives = { λ p t q. q ≡ written N p t };

    fn write_str(&mut self, s: &str) -> fmt::Result {
        self.words(s.as_bytes());
        Ok(())
    }
}

// A magnitude as nine digits and an exponent.
#[derive(Clone, Copy)]
struct Scaled {
    digits: u64,
    exponent: i32,
}

// Brought between 10^8 and 10^9 by steps of ten. Each step rounds, by some 10^-16 of the value at most, so that the ninth digit is the
// nearest but for a near tie; nine digits tell any two f32 apart. No f32 takes 64 steps.
fn nine_digits(x: f64) -> Scaled {
    let mut v = x;
    let mut exponent = 8i32;
    for _ in 0..64 {
        if v >= 999999999.5 {
            v = v / 10.0;
            exponent = exponent.saturating_add(1);
        } else if v < 99999999.95 {
            v = v * 10.0;
            exponent = exponent.saturating_sub(1);
        } else {
            break;
        }
    }
    Scaled {
        digits: std::num::saturating_f64_to_u64(v + 0.5),
        exponent,
    }
}
