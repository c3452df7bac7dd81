// The columns, or the rows, of a window (document 02, P6), and where they stand in a block of four places.
ghost use Rattle.std.specs.Prelude.{◌+◌, ◌≤◌};

// Of a level whose last column (row) is z, column (row) x stands at place x + 1 - next. The window's places end before `end`; the first place is one
// of them where next is not 0, and stands before column 0 where it is.
#[derive(Clone, Copy)]
pub struct Axis {
    pub next: usize,
    pub end: usize,
    pub z: usize,
    ghost fits: { (next ≤ 130) × (end ≤ 4) × (z ≤ 128) × (next + end ≤ z + 2) },
}

// One axis of a step down: where the level below stands in its block, and the level above.
#[derive(Clone, Copy)]
pub struct Step {
    pub below: usize,
    pub above: Axis,
    ghost wide: { 2 ≤ above.end },
}
