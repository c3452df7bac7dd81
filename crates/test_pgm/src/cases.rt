// The cases of the vectors one after the other.
use crate::answers::Picture;
use crate::parts::{Finding, MOST_PIXELS, MOST_PLACES, MOST_SINGLE, cut};
use crate::readers::Case;
use crate::writers::Written;
use crate::{parts, readers, writers};
use pyramid::Dimensions;
use refusals::Refusal;
use std::io;
use std::io::Read;
use test_support::decoding;
use test_support::numbered::answer_of;
use test_support::reading::{check_cases, read_exactly, read_part};
use test_support::reporting::Tally;

// How a case starts: the answer of the readers, or nothing where no refusal has its number; the file's length.
#[derive(Clone, Copy)]
struct Head {
    answer: Option<Result<(), Refusal>>,
    length: usize,
}

fn head_of(bytes: &[u8]) -> Head {
    Head {
        answer: answer_of(decoding::unsigned16_at(bytes, 0), ()),
        length: decoding::unsigned32_at(bytes, 2) as usize,
    }
}

// The readers over an accepted file, whose picture is lent with a place more, and the writer.
fn check_file(size: Dimensions, file: &[u8], more: &[u8], single: &[u8]) -> Option<Finding> {
    let pixels = parts::but_last(more);
    let written = Written {
        size,
        picture: pixels,
        file: single,
    };
    let expected = Ok(Picture { size, pixels });
    readers::check_read(Case { expected, file }).or(writers::check_written(written, more))
}

// Reads the single form that a case says, also where its file or its picture is too long for the buffers and was not read.
fn check_single<R: Read>(
    data: &mut R,
    size: Dimensions,
    file: Option<&[u8]>,
    more: Option<&[u8]>,
) -> io::Result<Option<Finding>> {
    let mut length: [u8; 4] = [0; 4];
    let mut single: [u8; MOST_SINGLE] = [0; MOST_SINGLE];
    let Some(length) = read_part(data, &mut length, 4)? else {
        return Ok(Some(cut()));
    };
    let n = decoding::unsigned32_at(length, 0) as usize;
    let single = read_part(data, &mut single, n)?;
    let (Some(file), Some(more), Some(single)) = (file, more, single) else {
        return Ok(Some(cut()));
    };
    Ok(check_file(size, file, more, single))
}

// Reads the picture that a case says, which is lent with a place more.
fn check_picture<R: Read>(
    data: &mut R,
    size: Dimensions,
    file: Option<&[u8]>,
) -> io::Result<Option<Finding>> {
    let mut pixels: [u8; MOST_PLACES] = [0; MOST_PLACES];
    let n = usize::from(size.columns) * usize::from(size.rows);
    let is_read = read_exactly(data, &mut pixels, n)?;
    let more = is_read.then_some(&pixels[..n.min(MOST_PIXELS) + 1]);
    check_single(data, size, file, more)
}

// Reads what the case says of a file that is accepted: its sides, its picture and its single form.
fn check_accepted<R: Read>(data: &mut R, file: Option<&[u8]>) -> io::Result<Option<Finding>> {
    let mut sides: [u8; 4] = [0; 4];
    let Some(sides) = read_part(data, &mut sides, 4)? else {
        return Ok(Some(cut()));
    };
    let size = Dimensions {
        columns: decoding::unsigned16_at(sides, 0),
        rows: decoding::unsigned16_at(sides, 2),
    };
    check_picture(data, size, file)
}

// The longest file has 65,551 bytes.
const MOST: usize = 65551;

// Reads the case that starts so. Of a file that is refused it says nothing more.
fn check_case<R: Read>(data: &mut R, h: Head) -> io::Result<Option<Finding>> {
    let mut file: [u8; MOST] = [0; MOST];
    let file = read_part(data, &mut file, h.length)?;
    match (h.answer, file) {
        (Some(Ok(())), file) => check_accepted(data, file),
        (_, None) => Ok(Some(cut())),
        (Some(Err(refusal)), Some(file)) => {
            let expected = Err(refusal);
            Ok(readers::check_read(Case { expected, file }))
        }
        (None, Some(file)) => Ok(Some(readers::other_answer(file))),
    }
}

// Reads the case that starts with a byte. Where its start is cut, it counts among those of the answer that its bytes make, with 0 for each
// that is not there.
fn check_next<R: Read>(
    data: &mut R,
    first: u8,
) -> io::Result<(Option<Result<(), Refusal>>, Option<Finding>)> {
    let mut start: [u8; 6] = [first, 0, 0, 0, 0, 0];
    let is_read = read_exactly(data, &mut start[1..], 5)?;
    let head = head_of(&start);
    if is_read {
        Ok((head.answer, check_case(data, head)?))
    } else {
        Ok((head.answer, Some(cut())))
    }
}

// All cases, and those of each answer that the vectors hold.
#[derive(Clone, Copy)]
pub(crate) struct Found {
    pub all: Tally<Finding>,
    pub accepted: Tally<Finding>,
    pub size: Tally<Finding>,
    pub header: Tally<Finding>,
    pub greatest: Tally<Finding>,
    pub pixels: Tally<Finding>,
}

impl Found {
    fn new() -> Self {
        let none = Tally::new();
        Found {
            all: none,
            accepted: none,
            size: none,
            header: none,
            greatest: none,
            pixels: none,
        }
    }

    // One more case, of an answer, where the vectors say one.
    fn count(&mut self, answer: Option<Result<(), Refusal>>, finding: Option<Finding>) {
        self.all.count(finding);
        match answer {
            Some(Ok(())) => self.accepted.count(finding),
            Some(Err(Refusal::Size)) => self.size.count(finding),
            Some(Err(Refusal::Header)) => self.header.count(finding),
            Some(Err(Refusal::Greatest)) => self.greatest.count(finding),
            Some(Err(Refusal::PixelCount)) => self.pixels.count(finding),
            _ => {}
        }
    }
}

// All cases to the end of the vectors. A case is told by its first byte, which is there or not, and never cut.
pub(crate) fn check_all<R: Read>(data: &mut R) -> io::Result<Found> {
    let mut found = Found::new();
    let mut first: [u8; 1] = [0];
    check_cases(
        data,
        &mut first,
        (None, Some(cut())),
        |data, first| check_next(data, decoding::byte_at(first, 0)),
        |(answer, finding)| found.count(answer, finding),
    )?;
    Ok(found)
}
