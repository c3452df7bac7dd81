// The bin rule (document 01, "Pyramid steps"), row by row.
ghost use Rattle.std.specs.Prelude.{◌≡◌, true, ltb, map, ◌<◌};
ghost use Rattle.mathematics.specs.Definitions.Tests.{all};
ghost use Rattle.quantizer.specs.Definitions.Bins.{bin_index};
ghost use Rattle.quantizer.specs.Inner.Reciprocals.{near};

use crate::dividing;

// The index m of a value: (2m - 1) * bin < 2 * value <= (2m + 1) * bin. At bin 0 it is 0.
fn bin_index(value: i32, bin: u16) -> i32
    ensures { result ≡ bin_index value bin }
{
    if bin == 0 {
        return 0;
    }
    dividing::divide(value, (bin - 1) / 2, bin)
}

fn index_each(row: &mut [i32], bin: u16)
    ensures { row.new ≡ map (λ L. bin_index L bin) row.old }
{
    for value in row.iter_mut() {
        *value = bin_index(*value, bin);
    }
}

// The same for values near 0 and a short bin, with one division for the row. The loop is vectorized.
fn index_each_near(row: &mut [i32], bin: u16)
    requires bin { (0 < bin) × (bin < 256) }
    requires values { all near row.old ≡ true }
    ensures { row.new ≡ map (λ L. bin_index L bin) row.old }
{
    let h = (bin - 1) / 2;
    let factor = dividing::reciprocal(bin);
    for value in row.iter_mut() {
        *value = dividing::multiply(*value, h, bin, factor);
    }
}

// The bits of a value with 8,192 added. Those from 16,384 up are clear for a value near 0, and for no other.
fn raised(value: i32) -> u32
    ensures { ltb result 16384 ≡ near value }
{
    value.wrapping_add(8192).cast_unsigned()
}

// Whether every value of a row is near 0, by the bits that are set for any of them. The loop is vectorized.
fn all_near(row: &[i32]) -> bool
    ensures { result ≡ all near row.now }
{
    let mut bits = 0;
    for &value in row {
        bits |= raised(value);
    }
    bits < 16384
}

// The index m of each value: (2m - 1) * bin < 2 * value <= (2m + 1) * bin. At bin 0 it is 0. Bins of 1 to 255 are fast for values from -8192
// to 8191.
pub fn index_row(row: &mut [i32], bin: u16)
    ensures { row.new ≡ map (λ L. bin_index L bin) row.old }
{
    if 0 < bin && bin < 256 && all_near(row) {
        index_each_near(row, bin);
    } else {
        index_each(row, bin);
    }
}
