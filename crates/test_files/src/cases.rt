// The cases of the vectors one after the other.
use crate::parts::{Finding, cut};
use crate::readers::Case;
use crate::{answers, readers, writers};
use refusals::Refusal;
use std::io;
use std::io::Read;
use test_support::decoding;
use test_support::decoding::Form;
use test_support::numbered::answer_of;
use test_support::reading::{check_cases, read_part};
use test_support::reporting::Tally;

// How a case starts: the answer of the reader that is lent no level buffer, or nothing where no refusal has its number; T, where the shape is
// accepted; the file's length.
#[derive(Clone, Copy)]
struct Head {
    answer: Option<Result<(), Refusal>>,
    nodes: Option<u16>,
    length: usize,
}

// The vectors have 0 for T where the shape is refused.
fn head_of(bytes: &[u8]) -> Head {
    let nodes = decoding::unsigned16_at(bytes, 2);
    Head {
        answer: answer_of(decoding::unsigned16_at(bytes, 0), ()),
        nodes: (nodes != 0).then_some(nodes),
        length: decoding::unsigned32_at(bytes, 4) as usize,
    }
}

// Both readers, and for an accepted file the writer.
pub(crate) fn check_file(c: Case) -> Option<Finding> {
    let read = readers::check_checking(c).or(readers::check_lent(c));
    match c.expected {
        Ok(_) => read.or(writers::check_written(c)),
        Err(_) => read,
    }
}

// Reads what the case says of a file that is accepted, which may not have been read: its settings and readings, and then its indices, of at
// most 44,718 bytes.
fn check_accepted<R: Read>(
    data: &mut R,
    form: Form,
    nodes: Option<u16>,
    file: Option<&[u8]>,
) -> io::Result<Option<Finding>> {
    let mut said: [u8; 36] = [0; 36];
    let mut indices: [u8; 44718] = [0; 44718];
    let Some(said) = read_part(data, &mut said, form.length() + 10)? else {
        return Ok(Some(cut()));
    };
    let length = 2 * usize::from(nodes.unwrap_or(0));
    let (Some(file), Some(indices)) = (file, read_part(data, &mut indices, length)?) else {
        return Ok(Some(cut()));
    };
    let expected = Ok(answers::held_in(form, said, indices));
    Ok(check_file(Case {
        expected,
        file,
        nodes,
    }))
}

// A file that is refused, of which the case says nothing more.
fn check_refused(refusal: Refusal, nodes: Option<u16>, file: &[u8]) -> Option<Finding> {
    check_file(Case {
        expected: Err(refusal),
        file,
        nodes,
    })
}

// The longest file has 65,594 bytes.
const MOST: usize = 65594;

// Reads the case that starts so. A file that is too long for the buffer is not read; what the case says of it, where it is accepted, is read
// all the same, but not in the form with black and white.
fn check_case<R: Read>(data: &mut R, form: Form, h: Head) -> io::Result<Option<Finding>> {
    let mut file: [u8; MOST] = [0; MOST];
    let file = read_part(data, &mut file, h.length)?;
    match (h.answer, file, form) {
        (Some(Ok(())), Some(_), _) | (Some(Ok(())), None, Form::Short) => {
            check_accepted(data, form, h.nodes, file)
        }
        (_, None, _) => Ok(Some(cut())),
        (Some(Err(refusal)), Some(file), _) => Ok(check_refused(refusal, h.nodes, file)),
        (None, Some(file), _) => Ok(Some(readers::other_answer(file))),
    }
}

// All cases to the end of the vectors.
// Kept: what it shares with test_vectors is `check_cases`; how long a start is, what a cut case is found to be, and the check differ.
pub(crate) fn check_all<R: Read>(data: &mut R, form: Form) -> io::Result<Tally<Finding>> {
    let mut tally = Tally::new();
    let mut start: [u8; 8] = [0; 8];
    check_cases(
        data,
        &mut start,
        Some(cut()),
        |data, start| check_case(data, form, head_of(start)),
        |found| tally.count(found),
    )?;
    Ok(tally)
}
