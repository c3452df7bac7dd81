// How the size that a call answers differs from what is expected: one function for every program that is answered sizes.
ghost use Rattle.std.specs.Prelude.{◌≡◌};
ghost use Rattle.test_support.specs.Definitions.Answers.{other_number, other_answer};

use crate::answers::{compare, compare_value};
use crate::reporting::{Finding, Spot};
use refusals::Refusal;

// Two sizes, or where a call is refused, or is to be, the numbers. The parts are those of a refusal and of a size, and the place is what
// was answered.
pub fn compare_size<C: Copy, P: Copy>(
    refusal: P,
    size: P,
    got: Result<usize, Refusal>,
    expected: Result<usize, Refusal>,
) -> Option<Finding<Spot<C, P>>>
    ensures { result ≡ other_answer refusal (other_number size) got expected }
{
    compare(refusal, got, expected, |x, e| compare_value(size, x, e))
}
