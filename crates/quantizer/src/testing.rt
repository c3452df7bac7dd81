// The test of a row of indices: the values of all of them lie within a limit of 0.
ghost use Rattle.std.specs.Prelude.{◌≡◌, map};
ghost use Rattle.mathematics.specs.Definitions.Tests.{all};
ghost use Rattle.quantizer.specs.Definitions.Values.{value_ok, pair_index};
ghost use Rattle.quantizer.specs.Inner.Ranges.{widened, range_ok};

// The lowest and the highest of some indices and 0.
#[derive(Clone, Copy, Default)]
struct Range {
    low: i16,
    high: i16,
}

// The range with one index more.
fn widened(range: Range, index: i16) -> Range
    ensures { result ≡ widened range index }
{
    Range {
        low: range.low.min(index),
        high: range.high.max(index),
    }
}

// Whether an index times its bin lies within a limit of 0.
fn value_ok(index: i16, bin: u16, limit: u16) -> bool
    ensures { result ≡ value_ok limit bin index }
{
    (i32::from(index) * i32::from(bin)).unsigned_abs() <= u32::from(limit)
}

// Whether both ends of a range, and so all indices between, times their bin lie within a limit of 0.
fn range_ok(range: Range, bin: u16, limit: u16) -> bool
    ensures { result ≡ range_ok limit bin range }
{
    value_ok(range.low, bin, limit) && value_ok(range.high, bin, limit)
}

// Whether every index of a row times the bin lies within the limit of 0: the lowest and the highest do.
pub fn indices_within(indices: &[i16], bin: u16, limit: u16) -> bool
    ensures { result ≡ all (value_ok limit bin) indices.now }
{
    let mut range = Range::default();
    for &index in indices {
        range = widened(range, index);
    }
    range_ok(range, bin, limit)
}

// Kept beside `indices_within`: these indices are made of two bytes each where they lie, low byte first, since there is no room for them.
// The two share `widened` and `range_ok`.
// The same of a row of indices that are pairs of bytes.
pub fn pairs_within(pairs: &[[u8; 2]], bin: u16, limit: u16) -> bool
    ensures { result ≡ all (value_ok limit bin) (map pair_index pairs.now) }
{
    let mut range = Range::default();
    for pair in pairs {
        range = widened(range, i16::from_le_bytes(*pair));
    }
    range_ok(range, bin, limit)
}
