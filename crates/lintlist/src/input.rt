// Standard input, in the start of a buffer.
ghost use Rattle.std.specs.Prelude.{◌≤◌, length, IfOk};

use std::io;
use std::io::Read;

// Reads until the input ends or the buffer is full, and answers how many bytes were read.
// Kept beside test_support's function of this kind: a program of the product stands on no crate of its tests, and std's `read_exact` doesn't
// say how much there was.
pub(crate) fn read_all<R: Read>(input: &mut R, space: &mut [u8]) -> io::Result<usize>
    ensures { IfOk result (λ n. n ≤ length space.new) }
{
    let mut n = 0;
    while n < space.len() {
        let more = input.read(&mut space[n..])?;
        if more == 0 {
            return Ok(n);
        }
        n += more;
    }
    Ok(n)
}
