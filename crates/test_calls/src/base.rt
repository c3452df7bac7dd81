// Lawful settings that the faults are made in: 9 by 5, N = 2, k = 4, black 16 and white 235, bins 3, 2 and 1.
use pyramid::Settings;

pub(crate) const BASE: Settings = Settings {
    columns: 9,
    rows: 5,
    depth: 2,
    kernel: 4,
    black: 16,
    white: 235,
    bins: [3, 2, 1, 0, 0, 0, 0],
};

pub(crate) const PIXELS: usize = 45;

// 45 + 15 + 6.
pub(crate) const NODES: usize = 66;
