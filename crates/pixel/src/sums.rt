// EXPAND of a block of sixteen values (document 02, P6): along the rows, then down the columns, with one rounding at the end.
ghost use Rattle.std.specs.Prelude.{◌≡◌, ◌<◌, cond, pos, ◌+ℤ◌, ◌*ℤ◌, get_or};
ghost use Rattle.mathematics.specs.Definitions.Tables.{tabulate};
ghost use Rattle.quantizer.specs.Definitions.Rounding.{round_div};
ghost use Rattle.pyramid.specs.Inner.Lawful.{Kernel};
ghost use Rattle.pyramid.specs.Inner.Rows.{as_level, Within, Small};
ghost use Rattle.pyramid.specs.Definitions.Weights.{weight};
ghost use Rattle.pyramid.specs.Definitions.Buffers.{raster};
ghost use Rattle.pixel.specs.Inner.Blocks.{extended, extended_rows, line_sum, row_sums, block_sum};

use crate::axes::{Axis, Step};
use pyramid::LawfulSettings;

// The weights of a kernel, by half of the centre's, which is its number; the one beside the centre is 5, and the outer one is what the half lacks of 5.
#[derive(Clone, Copy)]
pub struct Weights {
    pub kernel: u16,
    half: i32,
    ghost lawful: { Kernel kernel },
    ghost half_is: { half ≡ pos kernel },
}

impl Weights {
    pub fn new(lawful: LawfulSettings) -> Self
        ensures { result.kernel ≡ lawful.kernel }
    {
        let kernel = lawful.settings.kernel;
        Weights {
            kernel,
            half: i32::from(kernel),
        }
    }

    // What EXPAND takes at an even column or row.
    fn even(self, a: i32, b: i32, c: i32) -> i32
        requires { (Within 8388608 a) × (Within 8388608 b) × (Within 8388608 c) }
        ensures { result ≡ weight self.kernel 4 *ℤ (a +ℤ c) +ℤ weight self.kernel 2 *ℤ b }
    {
        let outer = a + c;
        self.half * (2 * b - outer) + 5 * outer
    }

    // At an odd one.
    fn odd(self, a: i32, b: i32) -> i32
        requires { (Within 8388608 a) × (Within 8388608 b) }
        ensures { result ≡ weight self.kernel 3 *ℤ (a +ℤ b) }
    {
        5 * (a + b)
    }
}

// One of two values.
fn choose(first: bool, a: i32, b: i32) -> i32
    ensures { result ≡ cond first a b }
{
    if first { a } else { b }
}

impl Step {
    // Four values along the axis, with what an edge reflects to the places beyond it.
    fn extended(self, v: [i32; 4]) -> [i32; 4]
        requires { Small 8388608 v }
        ensures { result ≡ tabulate 4 (extended self.above (λ n. get_or v n (pos 0))) }
    {
        let Axis { next, end, .. } = self.above;
        [
            choose(next == 0, v[2], v[0]),
            v[1],
            choose(end == 2, v[0], v[2]),
            choose(end == 3, v[1], v[3]),
        ]
    }

    // The rows of a block, each with what an edge reflects to the places beyond it.
    fn extended_rows(self, values: &[i32; 16]) -> [i32; 16]
        requires { Small 8388608 values.now }
        ensures { result ≡ raster 4 4 (extended_rows self.above values.now) }
    {
        let v = values;
        let [a, b, c, d] = self.extended([v[0], v[1], v[2], v[3]]);
        let [e, f, g, h] = self.extended([v[4], v[5], v[6], v[7]]);
        let [i, j, k, l] = self.extended([v[8], v[9], v[10], v[11]]);
        let [m, n, o, p] = self.extended([v[12], v[13], v[14], v[15]]);
        [a, b, c, d, e, f, g, h, i, j, k, l, m, n, o, p]
    }

    // The sums at the four places of the level below, of a line with what is beyond an edge.
    fn line(self, weights: Weights, v: [i32; 4]) -> [i32; 4]
        requires { Small 8388608 v }
        ensures { result ≡ tabulate 4 (line_sum weights.kernel self.below (λ n. get_or v n (pos 0))) }
    {
        let [a, b, c, d] = v;
        let abc = weights.even(a, b, c);
        let bc = weights.odd(b, c);
        let bcd = weights.even(b, c, d);
        if self.below % 2 == 1 {
            [abc, bc, bcd, weights.odd(c, d)]
        } else {
            [weights.odd(a, b), abc, bc, bcd]
        }
    }

    // The sums of row y.
    fn row(self, weights: Weights, values: &[i32; 16], y: usize) -> [i32; 4]
        requires below { y < 4 }
        requires small { Small 8388608 values.now }
        ensures { result ≡ tabulate 4 (line_sum weights.kernel self.below (λ x. as_level 4 values.now x y)) }
    {
        let at = y * 4;
        self.line(
            weights,
            [values[at], values[at + 1], values[at + 2], values[at + 3]],
        )
    }

    // The sums of the four rows, each row's down a column.
    #[inline(always)]
    fn rows(self, weights: Weights, values: &[i32; 16]) -> [i32; 16]
        requires { Small 8388608 values.now }
        ensures { result ≡ raster 4 4 (row_sums weights.kernel self values.now) }
    {
        let v = self.extended_rows(values);
        let [a, b, c, d] = self.row(weights, &v, 0);
        let [e, f, g, h] = self.row(weights, &v, 1);
        let [i, j, k, l] = self.row(weights, &v, 2);
        let [m, n, o, p] = self.row(weights, &v, 3);
        [a, e, i, m, b, f, j, n, c, g, k, o, d, h, l, p]
    }
}

// EXPAND of a block, at the sixteen places of the level below.
pub fn expand(columns: Step, rows: Step, weights: Weights, values: &[i32; 16]) -> [i32; 16]
    requires { Small 524288 values.now }
    ensures { result ≡ raster 4 4 (λ m n. round_div (block_sum weights.kernel columns rows values.now m n) 100) }
{
    let sums = columns.rows(weights, values);
    let mut expanded = rows.rows(weights, &sums);
    quantizer::round_row(&mut expanded, 100);
    expanded
}

// The first of them alone.
pub fn expand_first(columns: Step, rows: Step, weights: Weights, values: &[i32; 16]) -> i32
    requires { Small 524288 values.now }
    ensures { result ≡ round_div (block_sum weights.kernel columns rows values.now 0 0) 100 }
{
    let v = columns.extended_rows(values);
    let [a, _, _, _] = columns.row(weights, &v, 0);
    let [b, _, _, _] = columns.row(weights, &v, 1);
    let [c, _, _, _] = columns.row(weights, &v, 2);
    let [d, _, _, _] = columns.row(weights, &v, 3);
    let down = rows.extended([a, b, c, d]);
    let [sum, _, _, _] = rows.line(weights, down);
    let mut one: [i32; 1] = [sum];
    quantizer::round_row(&mut one, 100);
    one[0]
}
