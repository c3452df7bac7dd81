// The writer over an accepted file's picture.
use crate::answers::Picture;
use crate::parts::{Call, Finding, MOST_SINGLE, Part};
use crate::readers::Case;
use crate::{parts, readers};
use pyramid::Dimensions;
use refusals::Refusal;
use test_support::comparing::first_difference;
use test_support::fillers::{byte_filler, fill, first_changed};
use test_support::reporting::of_call;
use test_support::rooms::Room;
use test_support::sizes::compare_size;

// The longer file buffer has 24 bytes after those of the file.
pub(crate) const AFTER: usize = 24;

pub(crate) const MOST_ROOM: usize = MOST_SINGLE + AFTER;

// A picture, and the file that is to be made of it.
#[derive(Clone, Copy)]
pub(crate) struct Written<'a> {
    pub size: Dimensions,
    pub picture: &'a [u8],
    pub file: &'a [u8],
}

// A writing into a filled buffer, and what it leaves: one that is accepted the file, and the bytes after it as they were; a
// refused one all.
fn check_writing(e: Result<&[u8], Refusal>, w: Written, out: &mut [u8]) -> Option<Finding> {
    fill(out, byte_filler);
    let got = pgm::write_pgm(w.size, w.picture, out);
    let file = e.unwrap_or(&[]);
    let byte = first_difference(out, file);
    let kept = first_changed(out, file.len(), byte_filler);
    compare_size(Part::Refusal, Part::Size, got, e.map(|file| file.len()))
        .or(Finding::compared(Part::Byte, byte))
        .or(Finding::compared(Part::KeptByte, kept))
}

// A writing into as many bytes as the file has, or into more or one fewer.
fn check_room(call: Call, room: Room, e: Result<&[u8], Refusal>, w: Written) -> Option<Finding> {
    let mut out: [u8; MOST_ROOM] = [0; MOST_ROOM];
    let n = room.places(w.file.len(), AFTER).min(MOST_ROOM);
    of_call(call, check_writing(e, w, &mut out[..n]))
}

// Refused where the buffer lacks a byte.
// Kept, the three calls: as in `check_read` of readers.rt.
fn check_rooms(w: Written) -> Option<Finding> {
    let (file, short) = (Ok(w.file), Err(Refusal::FileLength));
    check_room(Call::Writing(Room::Exact), Room::Exact, file, w)
        .or(check_room(Call::Writing(Room::Longer), Room::Longer, file, w))
        .or(check_room(Call::Writing(Room::Shorter), Room::Shorter, short, w))
}

// A picture of another length, which is refused.
fn check_picture(room: Room, w: Written, picture: &[u8]) -> Option<Finding> {
    let other = Written { picture, ..w };
    let e = Err(Refusal::PictureLength);
    check_room(Call::WritingPicture(room), Room::Exact, e, other)
}

// Reads the file that is written into a buffer: the picture.
fn check_back(w: Written, out: &mut [u8]) -> Option<Finding> {
    let got = pgm::write_pgm(w.size, w.picture, out);
    let written = compare_size(Part::Refusal, Part::Size, got, Ok(w.file.len()));
    let expected = Ok(Picture {
        size: w.size,
        pixels: w.picture,
    });
    let case = Case {
        expected,
        file: out,
    };
    let read = readers::check_places(Call::ReadingBack, case, w.picture.len());
    of_call(Call::Writing(Room::Exact), written).or(read)
}

fn check_read_back(w: Written) -> Option<Finding> {
    let mut out: [u8; MOST_SINGLE] = [0; MOST_SINGLE];
    let n = w.file.len().min(MOST_SINGLE);
    check_back(w, &mut out[..n])
}

// Writes a picture, of which a place more is lent: the single form. With that place, and with one place fewer, it is refused.
pub(crate) fn check_written(w: Written, more: &[u8]) -> Option<Finding> {
    let got = pgm::pgm_size(w.size);
    let size = compare_size(Part::Refusal, Part::Size, got, Ok(w.file.len()));
    of_call(Call::Sizing, size)
        .or(check_rooms(w))
        .or(check_picture(Room::Longer, w, more))
        .or(check_picture(Room::Shorter, w, parts::but_last(w.picture)))
        .or(check_read_back(w))
}
