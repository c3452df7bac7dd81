// EXPAND (document 01, "Pyramid steps"): down the columns into a row of sums, then along that row, with one rounding at the end.
ghost use Rattle.std.specs.Prelude.{◌≡◌, ◌+◌, ◌-◌, ◌*◌, ◌/◌, ◌≤◌, pos, ◌+ℤ◌, ◌*ℤ◌, length, get_or};
ghost use Rattle.mathematics.specs.Definitions.Sums.{sum};
ghost use Rattle.mathematics.specs.Definitions.Tables.{tabulate};
ghost use Rattle.pyramid.specs.Definitions.Weights.{weight};
ghost use Rattle.pyramid.specs.Definitions.Edge.{reflect};
ghost use Rattle.pyramid.specs.Definitions.Steps.{even_weight, halved, expand};
ghost use Rattle.pyramid.specs.Inner.Rows.{as_level, column_sum, Small};

use crate::rasters::Raster;
use crate::taps::Weights;

// Three rows, weighed column by column, for an even row.
fn weigh_three(a: &[i32], b: &[i32], c: &[i32], weights: Weights, sums: &mut [i32])
    requires lengths { (length sums.old ≤ length a.now) × (length sums.old ≤ length b.now)
        × (length sums.old ≤ length c.now) }
    requires small { (Small 524288 a.now) × (Small 524288 b.now) × (Small 524288 c.now) }
    ensures { sums.new ≡ tabulate (length sums.old) (λ x.
        weight weights.kernel 4 *ℤ (get_or a.now x (pos 0) +ℤ get_or c.now x (pos 0))
        +ℤ weight weights.kernel 2 *ℤ get_or b.now x (pos 0)) }
{
    for (x, sum) in sums.iter_mut().enumerate() {
        *sum = weights.even(a[x], b[x], c[x]);
    }
}

// Two rows, for an odd one.
fn weigh_two(a: &[i32], b: &[i32], weights: Weights, sums: &mut [i32])
    requires lengths { (length sums.old ≤ length a.now) × (length sums.old ≤ length b.now) }
    requires small { (Small 524288 a.now) × (Small 524288 b.now) }
    ensures { sums.new ≡ tabulate (length sums.old) (λ x.
        weight weights.kernel 3 *ℤ (get_or a.now x (pos 0) +ℤ get_or b.now x (pos 0))) }
{
    for (x, sum) in sums.iter_mut().enumerate() {
        *sum = weights.odd(a[x], b[x]);
    }
}

// The sums of the rows that row j of the level below is expanded from, column by column.
fn expand_sums(level: Raster, j: usize, sums: &mut [i32])
    requires j_bound { (j ≤ 2 * (level.rows - 1)) × (length sums.old ≡ level.columns) }
    requires small { Small 524288 level.values.now }
    ensures { sums.new ≡
        tabulate level.entry.columns
        (column_sum (even_weight level.entry.weights.kernel j) (λ t. reflect (level.entry.rows - 1) (halved j t))
        (as_level level.entry.columns level.entry.values.now)) }
{
    let half = j / 2;
    let here = level.row(half + 2);
    let next = level.row(half + 3);
    if j % 2 == 0 {
        weigh_three(level.row(half + 1), here, next, level.weights, sums);
    } else {
        weigh_two(here, next, level.weights, sums);
    }
}

// The sums of a row of the level below, along the sums of a level's columns: each a quarter of what is rounded over 400.
fn expand_along(sums: &[i32], weights: Weights, row: &mut [i32])
    requires le_last { let last = length sums.now - 1 in
        (1 ≤ last) × (last ≤ 128) × (length row.old ≡ 2 * last + 1) }
    requires small { Small 8388608 sums.now }
    ensures { let last = length sums.now - 1 in row.new ≡
        tabulate (2 * last + 1)
        (λ i. sum 5 (λ t. even_weight weights.kernel i t *ℤ get_or sums.now (reflect last (halved i t)) (pos 0))) }
{
    let last = sums.len() - 1;
    row[0] = weights.even(sums[1], sums[0], sums[1]);
    row[1] = weights.odd(sums[0], sums[1]);
    for a in 1..last {
        row[2 * a] = weights.even(sums[a - 1], sums[a], sums[a + 1]);
        row[2 * a + 1] = weights.odd(sums[a], sums[a + 1]);
    }
    row[2 * last] = weights.even(sums[last - 1], sums[last], sums[last - 1]);
}

// Row j of the level below a level. Four times a sum over 400 is the sum over 100. What stands in the row of sums, before and after, does not
// matter: it is lent, since clearing one would be a part of every row's cost.
pub fn expand_row(level: Raster, j: usize, sums: &mut [i32], row: &mut [i32])
    requires j_bound { (j ≤ 2 * (level.rows - 1)) × (length row.old ≡ 2 * (level.columns - 1) + 1)
        × (level.columns ≤ length sums.old) }
    requires small { Small 524288 level.values.now }
    ensures { row.new ≡
        tabulate (2 * (level.entry.columns - 1) + 1)
        (λ i. expand level.entry.weights.kernel (level.entry.columns - 1) (level.entry.rows - 1)
        (as_level level.entry.columns level.entry.values.now) i j) }
{
    let sums = &mut sums[..level.columns];
    expand_sums(level, j, sums);
    expand_along(sums, level.weights, row);
    quantizer::round_row(row, 100);
}
