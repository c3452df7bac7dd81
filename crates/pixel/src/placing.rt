// Where the columns, or the rows, of a window stand (document 02, P6), by the pixel's.
ghost use Rattle.std.specs.Prelude.{◌≡◌, ◌+◌, ◌/◌, ◌^◌, ◌≤◌, ◌<◌};
ghost use Rattle.pixel.specs.Inner.Axes.{AxisOf};

use crate::axes::{Axis, Step};

impl Axis {
    // That of the window of column (row) p at a level.
    pub fn new(side: u16, p: u16, level: u16) -> Axis
        requires { (p < side) × (side ≤ 129) × (level ≤ 6) }
        ensures { AxisOf side p level result }
    {
        let p = usize::from(p);
        let z = usize::from(side - 1) >> level;
        let next = (p + 1) >> level;
        let last = ((p + (2 << level) - 2) >> level).min(z);
        Axis {
            next,
            end: last + 2 - next,
            z,
        }
    }
}

impl Step {
    // That of the step down to a level from the window above it.
    pub fn new(p: u16, level: u16, above: Axis) -> Step
        requires { (p ≤ 128) × (level ≤ 5) × (2 ≤ above.end) }
        ensures { (result.below ≡ (p + 1) / 2 ^ level) × (result.above ≡ above) }
    {
        Step {
            below: (usize::from(p) + 1) >> level,
            above,
        }
    }
}
