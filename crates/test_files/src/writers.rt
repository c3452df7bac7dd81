// The writer over what a file was read to hold.
use crate::parts::{Call, Finding, MOST_BYTES, MOST_PLACES, Part};
use crate::readers::Case;
use bale::Note;
use pyramid::Settings;
use refusals::Refusal;
use test_support::comparing::first_difference;
use test_support::fillers::{byte_filler, fill, first_changed};
use test_support::reporting::of_call;
use test_support::rooms::Room;
use test_support::sizes::compare_size;

// What is written.
#[derive(Clone, Copy)]
pub(crate) struct Written<'a> {
    pub settings: Settings,
    pub note: Note,
    pub levels: &'a [i16],
}

// The size of a file, or the refusal of its settings.
pub(crate) fn check_size(s: Settings, e: Result<usize, Refusal>) -> Option<Finding> {
    let size = compare_size(Part::Refusal, Part::Size, bale::file_size(s), e);
    of_call(Call::Sizing, size)
}

// What a writing leaves: the file, which is empty where it is refused, and the bytes after it as they were.
fn compare_file(file: &[u8], out: &[u8]) -> Option<Finding> {
    let byte = first_difference(out, file);
    let kept = first_changed(out, file.len(), byte_filler);
    Finding::compared(Part::Byte, byte).or(Finding::compared(Part::KeptByte, kept))
}

// A writing into a filled buffer, of which a file is to be made, or which is refused.
pub(crate) fn check_writing(
    e: Result<&[u8], Refusal>,
    w: Written,
    out: &mut [u8],
) -> Option<Finding> {
    fill(out, byte_filler);
    let got = bale::write_file(w.settings, w.note, w.levels, out);
    let length = e.map(|file| file.len());
    let size = compare_size(Part::Refusal, Part::Size, got, length);
    size.or(compare_file(e.unwrap_or(&[]), out))
}

// The longer buffer has 24 bytes after those of the file.
const AFTER: usize = 24;

// A writing into as many bytes as the file has, or into more or one fewer, which is refused.
fn check_room(room: Room, file: &[u8], w: Written) -> Option<Finding> {
    let mut out: [u8; MOST_BYTES + AFTER] = [0; MOST_BYTES + AFTER];
    let e = match room {
        Room::Shorter => Err(Refusal::FileLength),
        Room::Exact | Room::Longer => Ok(file),
    };
    let n = room.places(file.len(), AFTER).min(MOST_BYTES + AFTER);
    of_call(Call::Writing(room), check_writing(e, w, &mut out[..n]))
}

// Kept, the three calls: as in `check_lent` of readers.rt.
pub(crate) fn check_rooms(file: &[u8], w: Written) -> Option<Finding> {
    check_size(w.settings, Ok(file.len()))
        .or(check_room(Room::Exact, file, w))
        .or(check_room(Room::Longer, file, w))
        .or(check_room(Room::Shorter, file, w))
}

fn check_read(file: &[u8], levels: &mut [i16]) -> Option<Finding> {
    match bale::read_file(file, levels) {
        Ok(b) => check_rooms(
            file,
            Written {
                settings: b.settings,
                note: b.note,
                levels,
            },
        ),
        Err(refusal) => {
            let found = Finding::of_part(Part::Refusal, usize::from(u16::from(refusal)));
            Some(found.of_call(Call::Reading(Room::Exact)))
        }
    }
}

// Writes what an accepted file is read to hold: the same bytes.
pub(crate) fn check_written(c: Case) -> Option<Finding> {
    let mut levels: [i16; MOST_PLACES] = [0; MOST_PLACES];
    let n = usize::from(c.nodes.unwrap_or(0)).min(MOST_PLACES);
    check_read(c.file, &mut levels[..n])
}
