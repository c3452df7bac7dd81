// A level in a buffer, row after row, as REDUCE and EXPAND read it (document 01, "Pyramid steps").
ghost use Rattle.std.specs.Prelude.{◌≡◌, ◌+◌, ◌*◌, ◌≤◌, length};
ghost use Rattle.pyramid.specs.Inner.Rows.{row_at};

use crate::taps;
use crate::taps::Weights;

// The values of a level of so many columns and rows, and the weights that its rows are summed with.
#[derive(Clone, Copy)]
pub struct Raster<'a> {
    pub values: &'a [i32],
    pub columns: usize,
    pub rows: usize,
    pub weights: Weights,
    ghost wide: { (2 ≤ columns) × (columns ≤ 129) },
    ghost high: { (2 ≤ rows) × (rows ≤ 129) },
    ghost filled: { length values.now ≡ rows * columns },
}

impl<'a> Raster<'a> {
    // The row that place p stands for.
    pub fn row(self, p: usize) -> &'a [i32]
        requires { (3 ≤ self.rows + p) × (p ≤ 2 * self.rows) }
        ensures long { length result.now ≡ self.entry.columns }
        ensures is { result.now ≡ row_at self.entry.columns self.entry.rows p self.entry.values.now }
    {
        let start = taps::reflected(self.rows - 1, p) * self.columns;
        &self.values[start..start + self.columns]
    }
}
