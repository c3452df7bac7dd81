// What buffers hold before a call, different from place to place, and the first place that a call has changed.
ghost use Rattle.std.specs.Prelude.{◌≡◌, ℕ, ◌<◌, ◌≤◌, length};
ghost use Rattle.mathematics.specs.Definitions.Tables.{tabulate};
ghost use Rattle.test_support.specs.Definitions.Fillers.{byte_filler, lawful_index, unlawful_index, work_filler};
ghost use Rattle.test_support.specs.Definitions.Comparisons.{Gives, first_other};

use crate::comparing;

pub fn byte_filler(i: usize) -> u8
    ensures { result ≡ byte_filler i }
{
    (i % 251) as u8
}

// An index that is lawful at every bin.
pub fn lawful_index(i: usize) -> i16
    ensures { result ≡ lawful_index i }
{
    (i % 7) as i16
}

// An index that is lawful at no bin.
pub fn unlawful_index(i: usize) -> i16
    ensures { result ≡ unlawful_index i }
{
    !((i % 251 + 20000) as i16)
}

// No number that a call leaves.
pub fn work_filler(i: usize) -> i32
    ensures { result ≡ work_filler i }
{
    !((i % 251 + 100000000) as i32)
}

// Puts its filler at each place.
pub fn fill<T: Copy, F: Fn(usize) -> T>(buffer: &mut [T], filler: F)
    requires { (k : ℕ) → k < length buffer.old → F.pre filler k }
    ensures { (f : ℕ → T) → Gives (length buffer.old) (F.post filler) f → buffer.new ≡ tabulate (length buffer.old) f }
{
    for (i, place) in buffer.iter_mut().enumerate() {
        *place = filler(i);
    }
}

// The first place, from `from` on, that does not hold its filler.
pub fn first_changed<T: PartialEq + Copy, F: Fn(usize) -> T>(
    buffer: &[T],
    from: usize,
    filler: F,
) -> Option<usize>
    requires { (k : ℕ) → from ≤ k → k < length buffer.now → F.pre filler k }
    ensures { (f : ℕ → T) → Gives (length buffer.now) (F.post filler) f → result ≡ first_other T.eq from (length buffer.now) f buffer.now }
{
    comparing::first_other(buffer, from..buffer.len(), filler)
}
