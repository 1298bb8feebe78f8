// The words of a line, and the floats among them.
ghost use Rattle.std.specs.Prelude.{◌≡◌, ◌≤◌, length};

use crate::patterns::{same, single};
use crate::records::RECORD;
use arrayvec::ArrayVec;

// The most samples that a line has, and their floats: nothing of a line has more.
pub(crate) const MOST_SAMPLES: usize = 4096;

pub(crate) const FLOATS: usize = 2 * MOST_SAMPLES;

pub(crate) type Floats = ArrayVec<f32, FLOATS>;

// The most taps that a line has.
pub(crate) const MOST_TAPS: usize = 128;

// The longest line, 18,975 words, is that of two calls: two records, three sizes, weights and window before and after, samples, symbols, marks, numbers.
const LONGEST: usize = 2 * RECORD
    + 3
    + 8 * MOST_TAPS
    + 2 * FLOATS
    + MOST_SAMPLES / 8
    + MOST_SAMPLES / 4;

const MOST_WORDS: usize = 19_000;

const _: () = prove!(LONGEST <= MOST_WORDS);

pub(crate) type Words = ArrayVec<u64, MOST_WORDS>;

// A loop: a `collect` or an `extend` would answer an error where there is no room, and there is room for each.
pub(crate) fn floats(words: &[u64]) -> Floats
    requires { length words.now ≤ FLOATS }
    ensures { length result.items ≡ length words.now }
{
    let mut x = Floats::new();
    for w in words {
        x.push(single(*w));
    }
    x
}

// Whether the floats have the patterns of the words.
pub(crate) fn same_floats(x: &[f32], words: &[u64]) -> bool {
    x.len() == words.len() && x.iter().zip(words).all(|(x, w)| same(*x, *w))
}
