// The caller's slices into split arrays and back.
#![tactic(auto)]

ghost use Rattle.std.specs.Prelude.{◌≡◌, ◌+◌, ◌*◌, ◌≤◌, length};
ghost use Rattle.lanes_load.specs.Load.{Joined, Loaded, Moved};
ghost use Rattle.lanes.specs.Holds.{Limits};

use lanes::{LANES, Weights};
use types::C32;

// count complex values of x, from `from` on, into the lanes from `at` on. From and count, here and in `joined`, and no part of x lent: `Loaded` and `Joined` speak of the whole of it.
// By an index: one number is a place in x, re and im, and behind a `zip` of `iter_mut` a proof knows no element.
// Slices, here, in `joined` and in `moved`, and no `Split`: a part of an array, or one array alone, fits too.
pub fn split(re: &mut [f32], im: &mut [f32], at: usize, x: &[f32], from: usize, count: usize)
    requires count_in_bounds { (at + count ≤ length re.old) × (at + count ≤ length im.old) }
    requires count_in_bounds_2 { 2 * (from + count) ≤ length x.now }
    ensures { Loaded x.now at from count re.old im.old re.new im.new }
{
    for i in 0..count {
        let v = complex::at(x, from + i);
        re[at + i] = v.re;
        im[at + i] = v.im;
    }
}

// And back. By an index: one number is a place in re, im and x, which is written, and a `zip` of re and im would still count the places of x.
pub fn joined(x: &mut [f32], re: &[f32], im: &[f32], at: usize, from: usize, count: usize)
    requires count_in_bounds { (at + count ≤ length re.now) × (at + count ≤ length im.now) }
    requires count_in_bounds_2 { 2 * (from + count) ≤ length x.old }
    ensures { Joined re.now im.now at from count x.old x.new }
{
    for i in 0..count {
        let v = C32 {
            re: re[at + i],
            im: im[at + i],
        };
        complex::put(x, from + i, v);
    }
}

// count numbers from `from` on to the place `to`.
pub fn moved(x: &mut [f32], from: usize, to: usize, count: usize)
    requires { (from ≤ to) × (to + count ≤ length x.old) }
    ensures { Moved from to count x.old x.new }
{
    x.copy_within(from..from + count, to);
}

// The limits of the lanes: TINY for n forward weights, from 0 on, and m feedback weights, `front` behind the first feedback lane on, infinity for padding.
pub fn limits(n: usize, front: usize, m: usize) -> [f32; LANES]
    requires { (n ≤ 72) × (front + m ≤ 72) }
    ensures { Limits result 0 0 n × Limits result 72 front m }
{
    let back = Weights::BACK + front;
    let mut limit = [f32::INFINITY; LANES];
    limit[..n].fill(numeric::TINY);
    limit[back..back + m].fill(numeric::TINY);
    limit
}
