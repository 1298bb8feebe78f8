// Whole equalizing calls. A line holds what the equalizer starts from and the samples of two calls that follow
// one another; then what the calls give and leave:
// record, taps n, samples k1 and k2 of the calls, n weights, n window values, k1 + k2 samples;
// k1 + k2 symbols, their marks, their numbers, record, n weights, n window values.
ghost use Rattle.std.specs.Prelude.{◌≡◌, ◌+◌, ◌*◌, ◌≤◌, length};
ghost use Rattle.replay.specs.declared.words.TheConstants.{MOST_SAMPLES};

use crate::records::Kept;
use crate::words::{FLOATS, MOST_SAMPLES, floats, same_floats};
use types::{EqualizeState, Equalized};

// The words of a line. The first call takes k1 of k samples.
#[derive(Clone, Copy)]
struct Case<'a> {
    start: Kept<'a>,
    k1: usize,
    k: usize,
    samples: &'a [u64],
    symbols: &'a [u64],
    marks: &'a [u64],
    numbers: &'a [u64],
    left: Kept<'a>,
    ghost first: { k1 ≤ k },
    ghost all: { k ≤ MOST_SAMPLES },
    ghost samples_len: { length samples.now ≡ 2 * k },
}

impl Case<'_> {
    fn of(w: &[u64]) -> Option<Case<'_>> {
        let (record, w) = w.split_first_chunk()?;
        let (sizes, mut w) = w.split_first_chunk::<3>()?;
        let [n, k1, k2] = sizes.map(|size| size as usize);
        if k1 > MOST_SAMPLES || k2 > MOST_SAMPLES - k1 {
            return None;
        }
        let k = k1 + k2;
        Some(Case {
            start: Kept::of(record, &mut w, n, n)?,
            k1,
            k,
            samples: w.split_off(..2 * k)?,
            symbols: w.split_off(..2 * k)?,
            marks: w.split_off(..k.div_ceil(8))?,
            numbers: w.split_off(..k.div_ceil(4))?,
            left: Kept::last(w, n, n)?,
        })
    }
}

// The marks of a word, which stand in its digits, the first in the highest.
fn marks_of(word: u64) -> [u8; 8] {
    std::array::from_fn(|i| ((word >> (28 - 4 * i)) % 16) as u8)
}

// The numbers of a word, two digits each, in the same order.
fn numbers_of(word: u64) -> [u8; 4] {
    std::array::from_fn(|i| ((word >> (24 - 8 * i)) % 256) as u8)
}

// Whether what a word holds begins with these bytes, and is 0 behind them.
fn same_word(held: &[u8], bytes: &[u8]) -> bool {
    held.strip_prefix(bytes)
        .is_some_and(|rest| rest.iter().all(|byte| *byte == 0))
}

fn same_marks(marks: &[u8], words: &[u64]) -> bool {
    marks
        .chunks(8)
        .zip(words)
        .all(|(m, w)| same_word(&marks_of(*w), m))
}

fn same_numbers(numbers: &[u8], words: &[u64]) -> bool {
    numbers
        .chunks(4)
        .zip(words)
        .all(|(n, w)| same_word(&numbers_of(*w), n))
}

// Whether two calls of `equalize` give and leave what the line says. Output, marks and numbers start from what no call writes: a number is below 64, or 255.
fn replayed<E>(case: Case<'_>, start: EqualizeState, equalize: E) -> bool
where
    E: Fn(
        EqualizeState,
        &mut [f32],
        &mut [f32],
        &[f32],
        &mut [f32],
        &mut [u8],
        &mut [u8],
    ) -> Equalized,
    requires { E.IsAlwaysCallable equalize }
{
    let Case { k1, k, .. } = case;
    let mut weights = case.start.weights();
    let mut window = case.start.window();
    let input = floats(case.samples);
    let mut output = [f32::NAN; FLOATS];
    let mut marks = [255u8; MOST_SAMPLES];
    let mut numbers = [254u8; MOST_SAMPLES];
    let (x1, x2) = input.as_slice().split_at(2 * k1);
    let (y1, y2) = output[..2 * k].split_at_mut(2 * k1);
    let (m1, m2) = marks[..k].split_at_mut(k1);
    let (n1, n2) = numbers[..k].split_at_mut(k1);
    let (w, h) = (weights.as_mut_slice(), window.as_mut_slice());
    let first = equalize(start, w, h, x1, y1, m1, n1);
    let last = equalize(first.state, w, h, x2, y2, m2, n2);
    first.outcome.is_ok()
        & last.outcome.is_ok()
        & same_floats(&output[..2 * k], case.symbols)
        & same_marks(&marks[..k], case.marks)
        & same_numbers(&numbers[..k], case.numbers)
        & case.left.is(last.state, w, h)
}

// By the plain path, and by whichever is quickest.
pub(crate) fn agrees(w: &[u64]) -> Option<bool> {
    let case = Case::of(w)?;
    let Some(start) = case.start.state() else {
        return Some(false);
    };
    let plain = replayed(case, start, equalize::reference::equalize);
    let quick = replayed(case, start, equalize::equalize);
    Some(plain & quick)
}
