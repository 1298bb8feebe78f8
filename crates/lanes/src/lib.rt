// The split arrays of the quick and the joint path: real and imaginary parts apart, weights padded with zero lanes.

#![tactic(auto)]

ghost use Rattle.std.specs.Prelude.{◌≡◌, ◌+◌, ◌<◌, ◌≤◌, length, get_or, set};
ghost use Rattle.std.specs.Float.{nan};
ghost use Rattle.definition.specs.Floats.{complex};
ghost use Rattle.lanes.specs.Fits.{Fits};
ghost use Rattle.lanes.specs.Fed.{fed_at};

use types::C32;

// The most samples of a run.
pub const RUN: usize = 64;

// The lanes of the weights, half of them for the forward taps.
pub const LANES: usize = 144;

// The places of the window, half of them for the forward window.
pub const PLACES: usize = 288;

// The numbers of a call: the lanes of the sums and of the steps, forward and feedback, the padding in front of the feedback lanes, the feedback taps
// and the centre tap.
#[derive(Clone, Copy)]
pub struct Shape {
    pub lanes: usize,
    pub more: usize,
    pub quads: usize,
    pub mquads: usize,
    pub front: usize,
    pub m: usize,
    pub centre: usize,
    pub ghost fits: { Fits lanes more quads mquads front m centre },
}

// Lanes of a sum or of a step: the window from `at` on beside the weights from `from` on.
#[derive(Clone, Copy)]
pub struct Half {
    pub at: usize,
    pub from: usize,
    pub lanes: usize,
    pub ghost within: { (at + lanes ≤ 288) × (from + lanes ≤ 144) },
}

// Both halves of a sum or of a step.
#[derive(Clone, Copy)]
pub struct Halves {
    pub forth: Half,
    pub fed: Half,
    pub ghost apart: { (forth.from ≡ 0) × (fed.from ≡ 72) },
    pub ghost fits: { (forth.lanes ≤ 72) × (fed.lanes ≤ 72) },
}

// `lanes` forward and `more` feedback lanes of the sample at `at`, the feedback lanes with `front` of padding before them.
fn beside(at: usize, front: usize, lanes: usize, more: usize) -> Halves
    requires low { (at ≤ 63) × (front < 8) }
    requires fits { (lanes ≤ 72) × (more ≤ 72) }
    ensures forth { (result.forth.at ≡ at) × (result.forth.lanes ≡ lanes) }
    ensures fed { (result.fed.at ≡ fed_at at front) × (result.fed.lanes ≡ more) }
{
    Halves {
        forth: Half { at, from: 0, lanes },
        fed: Half {
            at: at + Window::FED - front,
            from: Weights::BACK,
            lanes: more,
        },
    }
}

impl Shape {
    // The halves of the sum for the sample at `at`. No type for a place below 64: it would save three `requires`, and cost a struct and five `.at`.
    pub fn sums(self, at: usize) -> Halves
        requires { at ≤ 63 }
        ensures forth { (result.forth.at ≡ at) × (result.forth.lanes ≡ self.lanes) }
        ensures fed { (result.fed.at ≡ fed_at at self.front) × (result.fed.lanes ≡ self.more) }
    {
        beside(at, self.front, self.lanes, self.more)
    }

    // The halves of the weights' step.
    pub fn steps(self, at: usize) -> Halves
        requires { at ≤ 63 }
        ensures forth { (result.forth.at ≡ at) × (result.forth.lanes ≡ self.quads) }
        ensures fed { (result.fed.at ≡ fed_at at self.front) × (result.fed.lanes ≡ self.mquads) }
    {
        beside(at, self.front, self.quads, self.mquads)
    }
}

// N complex numbers, parts apart as the specification has them: real and imaginary lanes apart.
#[derive(Clone, Copy)]
pub struct Split<const N: usize> {
    pub re: [f32; N],
    pub im: [f32; N],
}

impl<const N: usize> Split<N> {
    // The number at k.
    pub fn at(&self, k: usize) -> C32
        requires { k < N }
        ensures { result ≡ complex (get_or self.now.re k nan) (get_or self.now.im k nan) }
    {
        C32 {
            re: self.re[k],
            im: self.im[k],
        }
    }

    // The number at k set to v.
    pub fn put(&mut self, k: usize, v: C32)
        requires { k < N }
        ensures re { self.new.re ≡ set self.old.re k v.re }
        ensures im { self.new.im ≡ set self.old.im k v.im }
        ensures long { (length self.old.re ≡ N) × (length self.old.im ≡ N) }
    {
        self.re[k] = v.re;
        self.im[k] = v.im;
    }
}

// The weights: half of the lanes for the forward taps, then half for the feedback taps.
pub type Weights = Split<LANES>;

impl Weights {
    // Here and in `Window`, and no `Split<N>::ZERO`: of a constant of a generic block a proof knows no value.
    pub const ZERO: Weights = Split {
        re: [0.0; LANES],
        im: [0.0; LANES],
    };

    // The first lane of the feedback taps.
    pub const BACK: usize = LANES / 2;
}

// The window, with its re² + im²: the forward window in the lower half of the places, the feedback window in the upper half.
#[derive(Clone, Copy)]
pub struct Window {
    pub values: Split<PLACES>,
    pub squares: [f32; PLACES],
}

impl Window {
    pub const ZERO: Window = Window {
        values: Split {
            re: [0.0; PLACES],
            im: [0.0; PLACES],
        },
        squares: [0.0; PLACES],
    };

    // A feedback window stands so many places above its forward window.
    pub const BACK: usize = 152;

    // With a sample put in before that one, one more.
    pub const FED: usize = Window::BACK + 1;

    // The feedback window of the forward window at RUN, where a run's begin.
    pub const HOME: usize = RUN + Window::BACK;
}
