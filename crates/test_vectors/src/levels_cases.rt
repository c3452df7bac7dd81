// The cases of the file `levels`, and of that with black and white: a rebuilding from levels that no coding made, accepted or refused. A case
// has its indices, the answer and, if it is accepted, the values and the picture.
use crate::parts::{Finding, cut, no_sizes};
use crate::rebuilding;
use crate::rebuilding::Case;
use crate::shape::{MOST_BYTES, MOST_NODES, Shape};
use refusals::Refusal;
use std::io;
use std::io::Read;
use test_support::decoding;
use test_support::decoding::Form;
use test_support::numbered::answer_of;
use test_support::reading::read_part;

// The bytes after the answer, which is nothing where no refusal has its number.
fn bytes_after(answer: Option<Result<(), Refusal>>, z: Shape) -> usize {
    match answer {
        Some(Ok(())) => 4 * z.nodes + z.pixels,
        Some(Err(_)) | None => 0,
    }
}

// Reads a case whose settings have no sizes: it has its answer alone, and with black and white not even that.
pub(crate) fn read_over<R: Read>(data: &mut R, form: Form) -> io::Result<Option<Finding>> {
    let mut answer: [u8; 2] = [0; 2];
    let length = match form {
        Form::Short => 2,
        Form::Greys => 0,
    };
    read_part(data, &mut answer, length)?;
    Ok(Some(no_sizes()))
}

// Reads a case and checks it.
pub(crate) fn check_read<R: Read>(data: &mut R, z: Shape) -> io::Result<Option<Finding>> {
    let mut start: [u8; 2 * MOST_NODES + 2] = [0; 2 * MOST_NODES + 2];
    let mut bytes: [u8; MOST_BYTES] = [0; MOST_BYTES];
    let Some(start) = read_part(data, &mut start, 2 * z.nodes + 2)? else {
        return Ok(Some(cut()));
    };
    let (indices, number) = start.split_at(2 * z.nodes);
    let expected = answer_of(decoding::unsigned16_at(number, 0), ());
    let Some(bytes) = read_part(data, &mut bytes, bytes_after(expected, z))? else {
        return Ok(Some(cut()));
    };
    let case = Case {
        shape: z,
        expected,
        wide: true,
        bytes,
    };
    Ok(rebuilding::check(case, indices))
}
