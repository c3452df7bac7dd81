// Reading a window (document 02, P6): the values of its indices, where they stand in a block, and how many they are.
ghost use Rattle.std.specs.Prelude.{◌≡◌, ◌+◌, ◌*◌, ◌≤◌, ◌<◌, cond, leb, pos, nat_abs, ◌+ℤ◌, ◌*ℤ◌, length, get_or};
ghost use Rattle.mathematics.specs.Definitions.Tables.{tabulate};
ghost use Rattle.mathematics.specs.Definitions.Tests.{all};
ghost use Rattle.pyramid.specs.Definitions.Buffers.{raster};
ghost use Rattle.pyramid.specs.Definitions.Refusals.{limit};
ghost use Rattle.pyramid.specs.Inner.Rows.{as_level, Small};
ghost use Rattle.pixel.specs.Inner.Places.{holds, places, placed, block_of};

use crate::axes::Axis;

// Sixteen values, how many indices were read for them, and where the level below starts in a buffer of all levels.
#[derive(Clone, Copy)]
pub struct Block {
    pub values: [i32; 16],
    pub read: u16,
}

impl Axis {
    // Whether a place is the window's.
    #[tactic(auto, unfolding(crate::specs::Inner::Places::holds))]
    fn holds(self, m: usize) -> bool
        requires { m < 4 }
        ensures { result ≡ holds self m }
    {
        (m < self.end) & (0 < self.next + m)
    }

    // The value of the index that stands at a place, of a row of a level; 0 where it is not the window's.
    fn value(self, row: &[i16], bin: u16, m: usize) -> i32
        requires { (m < 4) × (length row.now ≡ self.z + 1) × (bin ≤ 255) }
        ensures { result ≡ placed self (λ i. get_or row.now i (pos 0) *ℤ pos bin) m }
    {
        if self.holds(m) {
            i32::from(row[self.next + m - 1]) * i32::from(bin)
        } else {
            0
        }
    }

    // Those of a row, and how many were read.
    fn read_row(self, row: &[i16], bin: u16, values: &mut [i32]) -> u16
        requires { (length values.old ≡ 4) × (length row.now ≡ self.z + 1) × (bin ≤ 255) }
        ensures count { result ≡ places self }
        ensures values_after { values.new ≡ tabulate 4 (placed self (λ i. get_or row.now i (pos 0) *ℤ pos bin)) }
    {
        let mut read = 0;
        for (m, value) in values.iter_mut().enumerate() {
            *value = self.value(row, bin, m);
            if self.holds(m) {
                read += 1;
            }
        }
        read
    }
}

// Whether all values lie within 4,096 of 0.
pub fn values_ok(values: &[i32; 16]) -> bool
    ensures { result ≡ all (λ v. leb (nat_abs v) limit) values.now }
{
    for &value in values {
        if 4096 < value.unsigned_abs() {
            return false;
        }
    }
    true
}

// Values, and what is predicted for them, in the place of that.
pub fn add(values: &[i32; 16], predicted: &mut [i32; 16])
    requires { (Small limit values.now) × (Small 2097152 predicted.old) }
    ensures { predicted.new ≡ tabulate (length predicted.old) (λ p. get_or values.now p (pos 0) +ℤ get_or predicted.old p (pos 0)) }
{
    for (p, x) in predicted.iter_mut().enumerate() {
        *x = values[p] + *x;
    }
}

// The columns and rows of a window.
#[derive(Clone, Copy)]
pub struct Window {
    pub columns: Axis,
    pub rows: Axis,
}

impl Window {
    // Row n of the block, and how many were read.
    #[inline(always)]
    fn read_line(self, level: &[i16], bin: u16, n: usize, values: &mut [i32]) -> u16
        requires { (n < 4) × (length values.old ≡ 4) × (bin ≤ 255) × (length level.now ≡ (self.rows.z + 1) * (self.columns.z + 1)) }
        ensures count { result ≡ cond (holds self.rows n) (places self.columns) 0 }
        ensures values_after { values.new ≡ tabulate 4 (λ m. block_of self.columns self.rows (λ i j. as_level (self.columns.z + 1) level.now i j *ℤ pos bin) m n) }
    {
        if !self.rows.holds(n) {
            values.fill(0);
            return 0;
        }
        let width = self.columns.z + 1;
        let at = (self.rows.next + n - 1) * width;
        self.columns.read_row(&level[at..at + width], bin, values)
    }

    // The whole block.
    #[inline(always)]
    pub fn read(self, level: &[i16], bin: u16) -> Block
        requires { (bin ≤ 255) × (length level.now ≡ (self.rows.z + 1) * (self.columns.z + 1)) }
        ensures count { result.read ≡ places self.rows * places self.columns }
        ensures values { result.values ≡ raster 4 4 (block_of self.columns self.rows (λ i j. as_level (self.columns.z + 1) level.now i j *ℤ pos bin)) }
    {
        let mut values: [i32; 16] = [0; 16];
        let mut read = 0;
        for n in 0..4 {
            read += self.read_line(level, bin, n, &mut values[4 * n..4 * n + 4]);
        }
        Block { values, read }
    }
}
