// REDUCE (document 01, "Pyramid steps"; document 02, P3): along the rows into exact sums, then down the columns, with one rounding at the end.
// Kept: `Small` in clauses, here and in expanding.rt and copying.rt: what is small is a slice that the caller has just filled through a
// `&mut`, to 4,096, 524,288 or 8,388,608; a type for it would be made between the filling and the reading, once for each row, by the very
// fact that the clause asks for.
// Kept: five values (rows, places) one by one, in expanding.rt and taps.rt three too: each has a weight of its own, and the outer two of them
// share theirs; an array would name them by number.
ghost use Rattle.std.specs.Prelude.{◌≡◌, ◌+◌, ◌-◌, ◌*◌, ◌/◌, ◌%◌, ◌≤◌, ◌<◌, pos, ◌+ℤ◌, ◌*ℤ◌, length, get_or};
ghost use Rattle.mathematics.specs.Definitions.Sums.{sum};
ghost use Rattle.mathematics.specs.Definitions.Tables.{tabulate};
ghost use Rattle.mathematics.specs.Inner.Splices.{part};
ghost use Rattle.pyramid.specs.Definitions.Weights.{weight};
ghost use Rattle.pyramid.specs.Definitions.Edge.{reflect};
ghost use Rattle.pyramid.specs.Definitions.Steps.{reduce};
ghost use Rattle.pyramid.specs.Definitions.Passes.{row_pass, column_pass};
ghost use Rattle.pyramid.specs.Definitions.Buffers.{raster};
ghost use Rattle.pyramid.specs.Inner.Rows.{as_level, Small, Reducible};
ghost use Rattle.pyramid.specs.Inner.RowSums.{in_turn, LastSums};

use crate::rasters::Raster;
use crate::taps;
use crate::taps::Weights;

// The row pass over a row: each sum of five, reflected at the edges. Like `sums_at`, a function of its own in the compiled code too.
#[inline(never)]
fn sum_along(row: &[i32], weights: Weights, sums: &mut [i32])
    requires le_last { let last = length row.now - 1 in
        (2 ≤ last) × (last ≤ 128) × (last % 2 ≡ 0) × (length sums.old ≡ last / 2 + 1) }
    requires small { Small 4096 row.now }
    ensures { let last = length row.now - 1 in sums.new ≡
        tabulate (last / 2 + 1)
        (λ i. sum 5 (λ t. weight weights.kernel t *ℤ get_or row.now (reflect last (2 * i + t)) (pos 0))) }
{
    let last = row.len() - 1;
    let end = last / 2;
    sums[0] = weights.five(row[2], row[1], row[0], row[1], row[2]);
    for i in 1..end {
        let x = 2 * i;
        sums[i] = weights.five(row[x - 2], row[x - 1], row[x], row[x + 1], row[x + 2]);
    }
    let (outer, beside) = (row[last - 2], row[last - 1]);
    sums[end] = weights.five(outer, beside, row[last], beside, outer);
}

// The row pass: the sums of row y of a level.
fn row_pass(level: Raster, y: usize, sums: &mut [i32])
    requires inside { (3 ≤ level.columns) × ((level.columns - 1) % 2 ≡ 0) × (y < level.rows)
        × (length sums.old ≡ (level.columns - 1) / 2 + 1) }
    requires small { Small 4096 level.values.now }
    ensures { let e = level.entry in sums.new ≡
        tabulate ((e.columns - 1) / 2 + 1)
        (λ i. row_pass e.weights.kernel (e.columns - 1) (as_level e.columns e.values.now) i y) }
{
    sum_along(level.row(y + 2), level.weights, sums);
}

// The sums of rows `from` to `to` - 1, each in the place of a row that is five rows older.
fn sum_rows(level: Raster, from: usize, to: usize, sums: &mut [i32])
    requires inside { (3 ≤ level.columns) × ((level.columns - 1) % 2 ≡ 0) × (from ≤ to) × (to ≤ level.rows) }
    requires small { Small 4096 level.values.now }
    requires before { LastSums level.weights.kernel (level.columns - 1) (as_level level.columns level.values.now) from sums.old }
    ensures { let e = level.entry in LastSums e.weights.kernel (e.columns - 1) (as_level e.columns e.values.now) to sums.new }
{
    let n = (level.columns - 1) / 2 + 1;
    for y in from..to {
        let start = y % 5 * n;
        row_pass(level, y, &mut sums[start..start + n]);
    }
}

// The sums of the row that place p stands for, of five rows of n sums. Five calls of one function take less room than five copies of it.
#[inline(never)]
fn sums_at<'a>(sums: &'a [i32], n: usize, z: usize, p: usize) -> &'a [i32]
    requires { (length sums.now ≡ 5 * n) × (n ≤ 65) × (z ≤ 128) }
    ensures long { length result.now ≡ n }
    ensures is { result.now ≡ part (reflect z p % 5 * n) (reflect z p % 5 * n + n) sums.now }
{
    let start = taps::reflected(z, p) % 5 * n;
    &sums[start..start + n]
}

// The column pass before it is rounded: five rows of sums, weighed column by column.
fn weigh_rows(
    a: &[i32],
    b: &[i32],
    c: &[i32],
    d: &[i32],
    e: &[i32],
    weights: Weights,
    row: &mut [i32],
)
    requires lengths { (length a.now ≡ length row.old) × (length b.now ≡ length row.old)
        × (length c.now ≡ length row.old) × (length d.now ≡ length row.old) × (length e.now ≡ length row.old) }
    requires small { (Small 8388608 a.now) × (Small 8388608 b.now) × (Small 8388608 c.now) × (Small 8388608 d.now)
        × (Small 8388608 e.now) }
    ensures { row.new ≡ tabulate (length row.old) (λ i.
        weight weights.kernel 4 *ℤ (get_or a.now i (pos 0) +ℤ get_or e.now i (pos 0))
        +ℤ weight weights.kernel 3 *ℤ (get_or b.now i (pos 0) +ℤ get_or d.now i (pos 0))
        +ℤ weight weights.kernel 2 *ℤ get_or c.now i (pos 0)) }
{
    for (i, node) in row.iter_mut().enumerate() {
        *node = weights.five(a[i], b[i], c[i], d[i], e[i]);
    }
}

// The column pass: row j of the next level, from the sums of the rows about row 2j, where z is the last row.
fn column_pass(sums: &[i32], z: usize, j: usize, weights: Weights, row: &mut [i32])
    requires lengths { (length sums.now ≡ 5 * length row.old) × (length row.old ≤ 65) }
    requires inside { (2 ≤ z) × (z ≤ 128) × (2 * j ≤ z) }
    requires small { Small 8388608 sums.now }
    ensures { row.new ≡
        tabulate (length row.old) (λ i. column_pass weights.kernel z (in_turn (length row.old) sums.now) i j) }
{
    let n = row.len();
    let a = sums_at(sums, n, z, 2 * j);
    let b = sums_at(sums, n, z, 2 * j + 1);
    let c = sums_at(sums, n, z, 2 * j + 2);
    let d = sums_at(sums, n, z, 2 * j + 3);
    let e = sums_at(sums, n, z, 2 * j + 4);
    weigh_rows(a, b, c, d, e, weights, row);
    quantizer::round_row(row, 400);
}

// REDUCE of a level.
pub fn reduce_level(level: Raster, above: &mut [i32])
    requires { Reducible level.columns level.rows level.values.now (length above.old) }
    ensures { let e = level.entry in above.new ≡
        raster ((e.columns - 1) / 2 + 1) ((e.rows - 1) / 2 + 1)
        (reduce e.weights.kernel (e.columns - 1) (e.rows - 1) (as_level e.columns e.values.now)) }
{
    let z = level.rows - 1;
    let n = (level.columns - 1) / 2 + 1;
    let mut sums: [i32; 325] = [0; 325];
    let sums = &mut sums[..5 * n];
    let mut next = 0;
    for j in 0..z / 2 + 1 {
        let to = level.rows.min(2 * j + 3);
        sum_rows(level, next, to, sums);
        next = to;
        column_pass(sums, z, j, level.weights, &mut above[j * n..j * n + n]);
    }
}
