// The two readers over a file.
use crate::answers;
use crate::answers::Picture;
use crate::parts::{Call, Finding, MOST_PLACES, Part};
use refusals::{Refusal, answer_number};
use test_support::comparing::first_difference;
use test_support::fillers::{byte_filler, fill, first_changed};
use test_support::reporting::of_call;
use test_support::rooms::Room;

// What a file is to be read to.
#[derive(Clone, Copy)]
pub(crate) struct Case<'f, 'p> {
    pub expected: Result<Picture<'p>, Refusal>,
    pub file: &'f [u8],
}

// What a reader leaves in the picture: of an accepted file its pixels, of a refused one nothing.
fn compare_picture(c: Case, picture: &[u8]) -> Option<Finding> {
    match c.expected {
        Ok(e) => Finding::compared(Part::Pixel, first_difference(e.pixels, picture)),
        Err(_) => {
            let kept = first_changed(picture, 0, byte_filler);
            Finding::compared(Part::KeptPixel, kept)
        }
    }
}

// The reader that is lent a filled picture.
// Kept: test_files' function of this name fills a buffer of indices, calls another reader and compares otherwise: all that is the same is
// that there are three steps.
fn check_reading(c: Case, picture: &mut [u8]) -> Option<Finding> {
    fill(picture, byte_filler);
    let got = pgm::read_pgm(c.file, picture);
    answers::compare(got, c.expected).or(compare_picture(c, picture))
}

// The same with so many places.
pub(crate) fn check_places(call: Call, c: Case, places: usize) -> Option<Finding> {
    let mut picture: [u8; MOST_PLACES] = [0; MOST_PLACES];
    let n = places.min(MOST_PLACES);
    of_call(call, check_reading(c, &mut picture[..n]))
}

// The reader that is lent no picture.
// Kept: test_files' function of this name has the same two steps with another call, whose answer is compared otherwise.
pub(crate) fn check_checking(c: Case) -> Option<Finding> {
    let got = pgm::check_pgm(c.file);
    of_call(Call::Checking, answers::compare(got, c.expected))
}

// That reader's answer, where the case says a number that no refusal has: it is another.
// Kept: test_files' function of this name asks another reader and names a call and a part of its own.
pub(crate) fn other_answer(file: &[u8]) -> Finding {
    let number = usize::from(answer_number(pgm::check_pgm(file)));
    Finding::of_part(Part::Refusal, number).of_call(Call::Checking)
}

// The second reader with so many places, or one more or fewer.
fn check_room(room: Room, c: Case, places: usize) -> Option<Finding> {
    check_places(Call::Reading(room), c, room.places(places, 1))
}

// Both readers, the second with as many places as the file has pixels, or some where it is refused; and with one place more and one
// fewer, which is refused where the file is accepted.
// Kept: a table of the three rooms with what each is to answer, and a `find_map` over it, would be as long as the three calls.
pub(crate) fn check_read(c: Case) -> Option<Finding> {
    let places = c.expected.map_or(4, |picture| picture.pixels.len());
    let other = Case {
        expected: c.expected.and(Err(Refusal::PictureLength)),
        ..c
    };
    check_checking(c)
        .or(check_room(Room::Longer, other, places))
        .or(check_room(Room::Shorter, other, places))
        .or(check_room(Room::Exact, c, places))
}
