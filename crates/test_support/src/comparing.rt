// The first of some places at which two things differ. A place among these that one of the two does not have counts as different.
ghost use Rattle.std.specs.Prelude.{◌≡◌, ℕ, Bool, Some, ◌<◌, ◌≤◌, ◌&&◌, ltb, length, ◌*◌, ◌/◌, slice_get};
ghost use Rattle.std.specs.Ordering.{int_eq};
ghost use Rattle.test_support.specs.Definitions.Comparisons.{Gives, is_same, first_failure, first_difference, first_difference_of, first_other, first_other_index};
ghost use Rattle.test_support.specs.Definitions.Numbers.{signed16};

use crate::decoding;
use std::ops::Range;

// The first place that fails a test.
pub fn first_failure<P: Fn(usize) -> bool>(places: Range<usize>, test: P) -> Option<usize>
    requires { (k : ℕ) → places.start ≤ k → k < places.end → P.pre test k }
    ensures { (passes : ℕ → Bool) → Gives places.end (P.post test) passes → result ≡ first_failure places.start places.end passes }
{
    for i in places.start..places.end {
        if !test(i) {
            return Some(i);
        }
    }
    None
}

// Whether two buffers both have a place, and hold the same there.
fn is_same<T: PartialEq>(a: &[T], b: &[T], i: usize) -> bool
    ensures { result ≡ is_same T.eq (slice_get a.now i) (slice_get b.now i) }
{
    match (a.get(i), b.get(i)) {
        (Some(x), Some(y)) => x == y,
        _ => false,
    }
}

// Whether a buffer has a place, and holds this there.
fn holds<T: PartialEq>(buffer: &[T], i: usize, expected: &T) -> bool
    ensures { result ≡ is_same T.eq (slice_get buffer.now i) (Some expected.now) }
{
    buffer.get(i) == Some(expected)
}

// Of the first n places, the first at which two buffers differ.
// Kept: n may be more than either buffer holds, and what it lacks counts as different, which sub-slices could not say.
pub fn first_difference_of<T: PartialEq>(a: &[T], b: &[T], n: usize) -> Option<usize>
    ensures { result ≡ first_difference_of T.eq n a.now b.now }
{
    first_failure(0..n, |i| is_same(a, b, i))
}

// The first place of what is expected at which a buffer does not hold it.
pub fn first_difference<T: PartialEq>(got: &[T], expected: &[T]) -> Option<usize>
    ensures { result ≡ first_difference T.eq got.now expected.now }
{
    first_difference_of(got, expected, expected.len())
}

// The first place that does not hold what is expected there.
pub fn first_other<T: PartialEq + Copy, F: Fn(usize) -> T>(
    buffer: &[T],
    places: Range<usize>,
    expected: F,
) -> Option<usize>
    requires { (k : ℕ) → places.start ≤ k → k < places.end → F.pre expected k }
    ensures { (f : ℕ → T) → Gives places.end (F.post expected) f → result ≡ first_other T.eq places.start places.end f buffer.now }
{
    first_failure(
        places,
        |i|
            requires { F.pre expected i }
        { holds(buffer, i, &expected(i)) },
    )
}

// Whether bytes hold the index of a place.
fn is_index(bytes: &[u8], levels: &[i16], i: usize) -> bool
    ensures { result ≡ (ltb i (length bytes.now / 2) && is_same int_eq (slice_get levels.now i) (Some (signed16 bytes.now (2 * i)))) }
{
    i < bytes.len() / 2 && holds(levels, i, &decoding::signed16_at(bytes, 2 * i))
}

// Of the first n places of a level buffer, the first that differs from the index that bytes hold there.
// Kept: n as of `first_difference_of`, from which it differs in the test of a place alone: what both share is `first_failure`.
pub fn indices(bytes: &[u8], levels: &[i16], n: usize) -> Option<usize>
    ensures { result ≡ first_other_index n bytes.now levels.now }
{
    first_failure(0..n, |i| is_index(bytes, levels, i))
}
