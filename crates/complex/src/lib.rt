// Complex numbers: number i of an interleaved slice has its real part at 2 i and its imaginary part at 2 i + 1.
#![tactic(auto)]

ghost use Rattle.std.specs.Prelude.{◌≡◌, ◌+◌, ◌*◌, ◌<◌, length, slice_set};
ghost use Rattle.definition.specs.Floats.{◌+f◌, ◌-f◌, ◌*f◌, complex, norm};
ghost use Rattle.definition.specs.Slices.{re_at, im_at};

use types::C32;

// Complex number i.
pub fn at(x: &[f32], i: usize) -> C32
    requires { 2 * i + 1 < length x.now }
    ensures { (result.re ≡ re_at x.now i) × (result.im ≡ im_at x.now i) }
{
    let j = 2 * i;
    C32 {
        re: x[j],
        im: x[j + 1],
    }
}

// Complex number i set to v.
pub fn put(x: &mut [f32], i: usize, v: C32)
    requires { 2 * i + 1 < length x.old }
    ensures { x.new ≡ slice_set (slice_set x.old (2 * i) v.re) (2 * i + 1) v.im }
{
    let j = 2 * i;
    x[j] = v.re;
    x[j + 1] = v.im;
}

// a·conj(b), each sum as the specification writes it: no `conj` before a `*`, which would ask for a law of negatives.
pub fn times_conj(a: C32, b: C32) -> C32
    ensures { result ≡ complex (a.re *f b.re +f a.im *f b.im) (a.im *f b.re -f a.re *f b.im) }
{
    C32 {
        re: a.re * b.re + a.im * b.im,
        im: a.im * b.re - a.re * b.im,
    }
}

// |v|²
pub fn norm(v: C32) -> f32
    ensures { result ≡ norm v }
{
    v.re * v.re + v.im * v.im
}
