// The complex filter sum, sum of x[i] w[i] without conjugate, over interleaved slices: eight partial sums for each component, f32 without FMA.
#![tactic(auto)]

ghost use Rattle.std.specs.Prelude.{◌≡◌, ◌*◌, ◌+◌, ◌<◌, ◌≤◌, length, get_or, Float};
ghost use Rattle.std.specs.Float.{nan};
ghost use Rattle.definition.specs.Slices.{sum8, tree, filter_sum, dot_complex};
ghost use Rattle.dot.specs.Added.{Added};
ghost use Rattle.dot.specs.Parts.{product_re, product_im, product_at};

use types::C32;

// A part of the complex product x w.
pub trait Part {
    ghost product: { Float → Float → Float → Float → Float };

    fn product(x: C32, w: C32) -> f32
        ensures { result ≡ product x.re x.im w.re w.im };
}

// The real part.
pub struct Re;

impl Part for Re {
    ghost product = { product_re };

    #[tactic(auto, unfolding(definition::specs::Floats::times_c))]
    fn product(x: C32, w: C32) -> f32 {
        (x * w).re
    }
}

// The imaginary part.
pub struct Im;

impl Part for Im {
    ghost product = { product_im };

    #[tactic(auto, unfolding(definition::specs::Floats::times_c))]
    fn product(x: C32, w: C32) -> f32 {
        (x * w).im
    }
}

// The final sum of the eight partial sums.
pub fn dot_complex_tree(a: &[f32; 8]) -> f32
    ensures { result ≡ tree (λ k. get_or a.now k nan) }
{
    ((a[0] + a[4]) + (a[2] + a[6])) + ((a[1] + a[5]) + (a[3] + a[7]))
}

// The first n numbers of two slices.
#[derive(Clone, Copy)]
struct Taps<'a> {
    x: &'a [f32],
    w: &'a [f32],
    n: usize,
    ghost within: { (2 * n ≤ length x.now) × (2 * n ≤ length w.now) },
}

// The part of x[i] w[i].
fn product_at<P: Part>(t: Taps, i: usize) -> f32
    requires { i < t.n }
    ensures { result ≡ product_at P.product t.entry.x.now t.entry.w.now i }
{
    P::product(complex::at(t.x, i), complex::at(t.w, i))
}

// Adds the products i .. i + m - 1, at most eight, in eight turns with a test in each: over `a[..m]`, whose length is no constant, the plain path took 7 % more
// with 31 + 15 taps. No function over a closure for this loop and the like in lanes_filter
// and lanes_prepare: in the two that are generic over a part the closure would need a contract of its own, so that they would be longer.
fn add<P: Part>(a: &mut [f32; 8], t: Taps, i: usize, m: usize)
    requires { (m ≤ 8) × (i + m ≤ t.n) }
    ensures { Added (product_at P.product t.entry.x.now t.entry.w.now) i m a.old a.new }
{
    for (k, s) in a.iter_mut().enumerate() {
        if k < m {
            *s += product_at::<P>(t, i + k);
        }
    }
}

// The part of the sum, by blocks of eight, counted: cut by `as_chunks` and put side by side by `zip`, both slices would have four names more.
fn sum<P: Part>(t: Taps) -> f32
    ensures { result ≡ sum8 (product_at P.product t.entry.x.now t.entry.w.now) t.entry.n }
{
    let mut a = [0.0f32; 8];
    for b in 0..t.n / 8 {
        add::<P>(&mut a, t, 8 * b, 8);
    }
    add::<P>(&mut a, t, 8 * (t.n / 8), t.n % 8);
    dot_complex_tree(&a)
}

// The sum, a pass for each component.
#[tactic(auto, unfolding(definition::specs::Slices::filter_sum))]
fn filter_sum(t: Taps) -> C32
    ensures { result ≡ filter_sum t.entry.n t.entry.x.now t.entry.w.now }
{
    C32 {
        re: sum::<Re>(t),
        im: sum::<Im>(t),
    }
}

// The sum over as many complex numbers as both slices hold.
#[tactic(auto, unfolding(definition::specs::Slices::dot_complex))]
pub fn dot_complex_c32(x: &[f32], w: &[f32]) -> C32
    ensures { result ≡ dot_complex x.now w.now }
{
    let n = (x.len() / 2).min(w.len() / 2);
    filter_sum(Taps { x, w, n })
}
