// Grids: the levels of a part, and where they lie on the grid of whole numbers.
ghost use Rattle.std.specs.Prelude.{◌<◌, ◌≤◌};

// The levels of 16-QAM, (2 i - 3) / sqrt(10), from the lowest up.
pub const QAM16_LEVELS: [f32; 4] = [-0.94868332, -0.31622776, 0.31622776, 0.94868332];

// The levels of 64-QAM, (2 i - 7) / sqrt(42).
pub const QAM64_LEVELS: [f32; 8] = [
    -1.0801234,
    -0.77151674,
    -0.46291006,
    -0.15430336,
    0.15430336,
    0.46291006,
    0.77151674,
    1.0801234,
];

// The Gray code of each level, from the lowest up: two that are neighbours differ in one bit.
pub(crate) const GRAYS: [u32; 8] = [0, 1, 3, 2, 6, 7, 5, 4];

// M levels a part. A part v lies at v * scale + half on the grid of whole numbers: scale is the root of the mean power over 2, half is M / 2.
#[derive(Clone, Copy)]
pub(crate) struct Grid<const M: usize> {
    pub(crate) levels: [f32; M],
    pub(crate) scale: f32,
    pub(crate) half: f32,
    ghost small: { (0 < M) × (M ≤ 8) },
}

// scale is sqrt(10) / 2.
pub(crate) const QAM16: Grid<4> = Grid {
    levels: QAM16_LEVELS,
    scale: 1.5811388,
    half: 2.0,
};

// scale is sqrt(42) / 2.
pub(crate) const QAM64: Grid<8> = Grid {
    levels: QAM64_LEVELS,
    scale: 3.2403703,
    half: 4.0,
};
