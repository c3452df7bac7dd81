// Division that rounds down, in three ways.
ghost use Rattle.std.specs.Prelude.{◌≡◌, true, pos, nat_abs, ◌+ℤ◌, ◌≤◌, ◌<◌};
ghost use Rattle.quantizer.specs.Inner.Division.{Floor};
ghost use Rattle.quantizer.specs.Inner.Reciprocals.{Reciprocal, near};

// The largest whole number not above (x + h) / d.
pub fn divide(x: i32, h: u16, d: u16) -> i32
    requires { h < d }
    ensures { Floor (x +ℤ pos h) (pos d) result }
{
    (x as i64 + h as i64).div_euclid(d as i64) as i32
}

// The same for x of 31 bits, in 32 bits: so many d are added that what is divided is not negative, and taken off again. Where the compiler
// knows d, it vectorizes a loop of these.
pub fn divide_short(x: i32, h: u16, d: u16) -> i32
    requires divisor { (h < d) × (1 < d) }
    requires short { nat_abs x ≤ 1073741824 }
    ensures { Floor (x +ℤ pos h) (pos d) result }
{
    let count = 1073741824 / d as u32 + 1;
    let raise = count * d as u32 + h as u32;
    let raised = (x as i64 + raise as i64) as u32;
    (raised / d as u32) as i32 - count as i32
}

// A factor by which `multiply` stands for a division by d: 2^31 over d, rounded down, and 1 more.
pub fn reciprocal(d: u16) -> u32
    requires { 0 < d }
    ensures { Reciprocal d result }
{
    2147483648 / d as u32 + 1
}

// The same as `divide` for x near 0 and a short d, by a multiplication: 8,192 d are added, so that what is multiplied is not negative, and
// taken off again. The compiler vectorizes a loop of these: it is doubled so that the quotient is the upper half of the product.
pub fn multiply(x: i32, h: u16, d: u16, factor: u32) -> i32
    requires divisor { (h < d) × (d < 256) }
    requires short { near x ≡ true }
    requires factor { Reciprocal d factor }
    ensures { Floor (x +ℤ pos h) (pos d) result }
{
    let raised = (x + (h as i32 + d as i32 * 8192)) as u32;
    let doubled = raised * 2;
    (doubled as u64 * factor as u64 / 4294967296) as i32 - 8192
}
