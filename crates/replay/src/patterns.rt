// Floats and their patterns. Every NaN is taken alike. Two functions each for f32 and f64: a trait over both would take more lines than they have.
use std::num::{
    f32_from_bits_with_nan, f32_to_bits_with_nan, f64_from_bits_with_nan, f64_to_bits_with_nan,
};

// The f32 of a pattern.
pub(crate) fn single(w: u64) -> f32 {
    f32_from_bits_with_nan(whole(w))
}

// The f64 of a pattern.
pub(crate) fn double(w: u64) -> f64 {
    f64_from_bits_with_nan(w)
}

// The pattern of an f32.
pub(crate) fn pattern(x: f32) -> u64 {
    u64::from(f32_to_bits_with_nan(x))
}

// The pattern of an f64.
pub(crate) fn pattern_double(x: f64) -> u64 {
    f64_to_bits_with_nan(x)
}

// Whether x has the pattern w, or both are NaNs.
pub(crate) fn same(x: f32, w: u64) -> bool {
    w <= u64::from(u32::MAX) && pattern(x) == pattern(single(w))
}

// The u32 of a word.
pub(crate) fn whole(w: u64) -> u32 {
    (w % 0x1_0000_0000) as u32
}

// The case of a number, where one has it.
pub(crate) fn case_of<T: TryFrom<u32>>(w: u64) -> Option<T>
where
    T::Error: Drop,
{
    T::try_from(u32::try_from(w).ok()?).ok()
}
