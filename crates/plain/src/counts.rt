// The taps of a call.
ghost use Rattle.std.specs.Prelude.{◌≡◌, ◌-◌, ◌≤◌};

// All of them, and how many of them are forward.
#[derive(Clone, Copy)]
pub(crate) struct Taps {
    pub(crate) all: usize,
    pub(crate) forward: usize,
    ghost some: { 3 ≤ forward },
    ghost most: { forward ≤ 63 },
    ghost within: { forward ≤ all },
    ghost back: { all - forward ≤ 63 },
}

impl Taps {
    pub(crate) fn feedback(self) -> usize
        ensures { result ≡ self.all - self.forward }
    {
        self.all - self.forward
    }
}
