// How a call's answer differs from what is expected of it: a value, or a refusal, which is shown by its number.
ghost use Rattle.std.specs.Prelude.{◌≡◌};
ghost use Rattle.refusals.specs.Definitions.Outcomes.{answer_number};
ghost use Rattle.test_support.specs.Definitions.Answers.{other_number, other_answer};

use crate::reporting::{Finding, Spot};
use refusals::{Refusal, answer_number};

// A number that is answered, where it is not the one expected.
pub fn compare_value<C: Copy, P: Copy>(
    part: P,
    got: usize,
    expected: usize,
) -> Option<Finding<Spot<C, P>>>
    ensures { result ≡ other_number part got expected }
{
    (got != expected).then_some(Finding::of_part(part, got))
}

// The number of an answer, where it is not that of what is expected; 0 is that of a value.
// Kept: the number is what is shown, 0 beside the others; so numbers are compared too, by the function that compares values.
pub fn compare_number<T: Copy, E: Copy, C: Copy, P: Copy>(
    part: P,
    got: Result<T, Refusal>,
    expected: Result<E, Refusal>,
) -> Option<Finding<Spot<C, P>>>
    ensures { result ≡ other_number part (answer_number got) (answer_number expected) }
{
    let number = usize::from(answer_number(got));
    compare_value(part, number, usize::from(answer_number(expected)))
}

// A value as `values` compares it, and where the call is refused, or is to be, the numbers.
pub fn compare<T: Copy, E: Copy, C: Copy, P: Copy, F: Fn(T, E) -> Option<Finding<Spot<C, P>>>>(
    part: P,
    got: Result<T, Refusal>,
    expected: Result<E, Refusal>,
    values: F,
) -> Option<Finding<Spot<C, P>>>
    requires { (x : T) (e : E) → F.pre values x e }
    ensures { (f : T → E → _) → ((x : T) (e : E) (r : _) → F.post values x e r → r ≡ f x e) → result ≡ other_answer part f got expected }
{
    match (got, expected) {
        (Ok(x), Ok(e)) => values(x, e),
        _ => compare_number(part, got, expected),
    }
}
