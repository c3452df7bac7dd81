// Rounding (document 01, "Pyramid steps"), row by row.
ghost use Rattle.std.specs.Prelude.{◌≡◌, ◌*◌, ◌<◌, map};
ghost use Rattle.quantizer.specs.Definitions.Rounding.{round_div};

use crate::dividing;

// The largest whole number not above sum / divisor + 1/2. Over 0 it is 0.
fn round_div(sum: i32, divisor: u16) -> i32
    ensures { result ≡ round_div sum divisor }
{
    if divisor == 0 {
        return 0;
    }
    dividing::divide(sum, divisor / 2, divisor)
}

// The same over four quarters: half the sum, rounded down, over half the divisor.
fn round_quarters(sum: i32, quarter: u16) -> i32
    requires { (0 < quarter) × (quarter < 16384) }
    ensures { result ≡ round_div sum (4 * quarter) }
{
    dividing::divide_short(sum >> 1, quarter, 2 * quarter)
}

fn round_each(row: &mut [i32], divisor: u16)
    ensures { row.new ≡ map (λ S. round_div S divisor) row.old }
{
    for sum in row.iter_mut() {
        *sum = round_div(*sum, divisor);
    }
}

// The same over four quarters. Where the compiler knows the quarter, the loop is vectorized.
fn round_each_quarters(row: &mut [i32], quarter: u16)
    requires { (0 < quarter) × (quarter < 16384) }
    ensures { row.new ≡ map (λ S. round_div S (4 * quarter)) row.old }
{
    for sum in row.iter_mut() {
        *sum = round_quarters(*sum, quarter);
    }
}

// Each sum over the divisor, rounded: the largest whole number not above sum / divisor + 1/2. Over 0 it is 0. Two divisors are fast.
pub fn round_row(row: &mut [i32], divisor: u16)
    ensures { row.new ≡ map (λ S. round_div S divisor) row.old }
{
    match divisor {
        400 => round_each_quarters(row, 100),
        100 => round_each_quarters(row, 25),
        _ => round_each(row, divisor),
    }
}
