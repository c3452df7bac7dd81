// A small file, byte after byte as document 01 has it, and a file of three levels.
// Kept: refusals are numbers, for the reason at `expected` in `lent`.
use crate::handed::Handed;
use crate::lent::{BEFORE, TALL};
use crate::parts::{Coded, Readings, code};
use crate::writing::Contents;
use crate::{handed, parts, writing};
use pyramid::Settings;
use std::array;
use test_support::comparing::{first_difference, indices};
use test_support::decoding;
use test_support::fillers::{byte_filler, first_changed, lawful_index, unlawful_index};
use test_support::reading::rest;
use test_support::reporting::Checks;

// A fault code of 9 before the drier, 100 percent at the press.
pub(crate) const SMALL_READINGS: Readings = [
    Coded { kind: 2, number: 9 },
    Coded {
        kind: 1,
        number: 0x42C8_0000,
    },
];

// The file of 3 by 2, N = 0, k = 5, every grey, bin 7, these readings and the indices below; and a byte more.
const SMALL_FILE: [u8; 41] =
    *b"\x04\x00\x03\x00\x02\x00\x00\x00\x05\x00\x01\x00\x07\x00\x02\x00\x02\x09\x00\x00\x00\x01\x00\x00\xC8\x42\x06\x00\x01\x00\xFF\xFF\x00\x01\xB7\xFD\x49\x02\xE0\xFF\x00";

pub(crate) const SMALL_LEVELS: [i16; 7] = [1, -1, 256, -585, 585, -32, 0];

// Readings, how many of the levels are written into how many bytes, and the answer: the exact bytes, and more; then refusals, each
// with the next besides.
pub(crate) fn written() -> Checks {
    let r = SMALL_READINGS;
    let file = &SMALL_FILE[..40];
    let mut t = Checks::new();
    for (readings, places, room, e) in [
        (r, 6, 40, Ok(file)),
        (r, 6, 50, Ok(file)),
        (r, 6, 39, Err(8)),
        (r, 6, 0, Err(8)),
        (r, 5, 39, Err(6)),
        (r, 7, 39, Err(6)),
        ([code(2, 0), code(1, 0)], 5, 39, Err(4)),
        ([code(2, 9), code(3, 0)], 5, 39, Err(4)),
    ] {
        let n = places.min(7);
        let contents = Contents {
            settings: parts::small(7),
            readings,
            levels: &SMALL_LEVELS[..n],
        };
        t.check(writing::gives(contents, room, e));
    }
    t
}

// Columns, rows, N, k and a bin that are refused.
const UNSET: [(u16, u16, u16, u16, u16, u16); 11] = [
    (1, 2, 0, 5, 7, 1),
    (1, 2, 7, 2, 0, 1),
    (3, 2, 7, 5, 7, 13),
    (4, 4, 7, 2, 0, 13),
    (4, 3, 1, 5, 7, 14),
    (4, 4, 1, 2, 0, 14),
    (3, 4, 1, 5, 7, 15),
    (3, 4, 1, 2, 0, 15),
    (3, 2, 0, 2, 0, 2),
    (3, 2, 0, 5, 0, 3),
    (3, 2, 0, 5, 256, 3),
];

// With a reading that would be refused.
pub(crate) fn unset() -> Checks {
    let mut t = Checks::new();
    for (columns, rows, depth, kernel, bin, refusal) in UNSET {
        let contents = Contents {
            settings: Settings {
                columns,
                rows,
                depth,
                kernel,
                ..parts::small(bin)
            },
            readings: [code(3, 0), code(1, 0)],
            levels: &SMALL_LEVELS[..6],
        };
        t.check(writing::gives(contents, 39, Err(refusal)));
    }
    t
}

// What the readers are to hand out of a file with the small one's readings.
fn expected(e: Result<Settings, u16>) -> (u16, Handed) {
    handed::expected(e, SMALL_READINGS)
}

// Reads a file with so many places lent. That leaves the small file's indices, or all places as they were.
// Kept: `places` is the length of the level buffer that is lent, not of the file. A file, the places and what is expected stay three arguments,
// since no other function takes them.
pub(crate) fn check_reading(t: &mut Checks, file: &[u8], places: usize, e: Result<Settings, u16>) {
    let before: [i16; 7] = array::from_fn(unlawful_index);
    let mut levels = before;
    let n = places.min(7);
    let got = handed::by_reading(file, &mut levels[..n]);
    t.check(got == expected(e));
    t.check(match e {
        Ok(_) => first_difference(&levels, &SMALL_LEVELS[..6]).is_none(),
        Err(_) => levels == before,
    });
}

// The small file with one byte set anew.
fn with_byte(place: usize, byte: u8) -> [u8; 41] {
    let mut file = SMALL_FILE;
    file[place.min(40)] = byte;
    file
}

// Both readers, the one with as many places lent as the small file has indices.
pub(crate) fn check_both(t: &mut Checks, file: &[u8], e: Result<Settings, u16>) {
    t.check(handed::by_checking(file) == expected(e));
    check_reading(t, file, 6, e);
}

// How many bytes of the small file are read, a place and the byte there, and the refusal: cut in each section, with a byte more; then
// a fault in each section.
const SMALL: [(usize, usize, u8, u16); 20] = [
    (0, 0, 4, 9),
    (9, 0, 4, 9),
    (13, 0, 4, 9),
    (25, 0, 4, 9),
    (39, 0, 4, 9),
    (41, 0, 4, 12),
    (40, 0, 5, 10),
    (40, 2, 1, 1),
    (40, 4, 130, 1),
    (40, 6, 7, 13),
    (40, 6, 2, 14),
    (40, 6, 1, 15),
    (40, 8, 7, 2),
    (40, 10, 2, 10),
    (40, 12, 0, 3),
    (40, 13, 1, 3),
    (40, 14, 1, 10),
    (40, 16, 3, 4),
    (40, 26, 5, 10),
    (40, 29, 3, 11),
];

// The file, and with more and fewer places; then what is refused.
pub(crate) fn small() -> Checks {
    let mut t = Checks::new();
    check_both(&mut t, &SMALL_FILE[..40], Ok(parts::small(7)));
    check_reading(&mut t, &SMALL_FILE[..40], 7, Err(6));
    check_reading(&mut t, &SMALL_FILE[..40], 5, Err(6));
    for (size, place, byte, refusal) in SMALL {
        let file = with_byte(place, byte);
        check_both(&mut t, &file[..size.min(41)], Err(refusal));
    }
    t
}

// Reads the file of three levels back: the fillers in the level buffer, the settings and the readings.
fn check_three_read(t: &mut Checks, file: &[u8], written: &[i16; 66]) {
    let mut levels: [i16; 66] = array::from_fn(unlawful_index);
    let got = handed::by_reading(file, &mut levels);
    let e = handed::expected(Ok(TALL), [code(1, 0x40D0_0000), code(2, 17)]);
    t.check(got == e);
    t.check(levels == *written);
    t.check(handed::by_checking(file) == e);
}

// The start of the file: the shape, with black and white, the bins of level 2, 1 and 0, 6.5 percent and a fault code of 17, and the count of
// level 2.
const THREE_START: &[u8] =
    b"\x06\x00\x05\x00\x09\x00\x02\x00\x03\x00\x10\x00\xEB\x00\x03\x00\x02\x00\x04\x00\x07\x00\x02\x00\x01\x00\x00\xD0\x40\x02\x11\x00\x00\x00\x06\x00";

// Whether a section starts with a level's count and its indices.
fn has_level(section: &[u8], levels: &[i16]) -> bool {
    let n = levels.len();
    usize::from(decoding::unsigned16_at(section, 0)) == n
        && indices(rest(section, 2), levels, levels.len()).is_none()
}

// What the writer leaves, and what the readers make of it.
fn check_three(t: &mut Checks, file: &[u8; 174], levels: &[i16; 66]) {
    t.check(first_difference(file, THREE_START).is_none());
    t.check(has_level(&file[34..], &levels[..6]));
    t.check(has_level(&file[48..], &levels[6..21]));
    t.check(has_level(&file[80..], &levels[21..]));
    t.check(first_changed(file, 172, byte_filler).is_none());
    check_three_read(t, &file[..172], levels);
}

// Writes the file of 5 columns and 9 rows, N = 2, k = 3, black 16 and white 235, bins 7, 4 and 2.
pub(crate) fn three() -> Checks {
    let mut t = Checks::new();
    let levels: [i16; 66] = array::from_fn(lawful_index);
    let mut file: [u8; 174] = array::from_fn(byte_filler);
    let mut size = usize::from(BEFORE);
    let answer = lepsarvu::lepsarvu_write_file(
        &[5, 9, 2, 3, 16, 235, 7, 4, 2, 0, 0, 0, 0],
        &[1, 0x40D0_0000, 2, 17],
        &levels,
        &mut file,
        &mut size,
    );
    t.check(answer == 0 && size == 172);
    check_three(&mut t, &file, &levels);
    t
}
