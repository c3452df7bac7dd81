// PGM files that are read. What their headers mean is document 02's (P2).
// Kept: refusals are numbers, for the reason at `expected` in `lent`.
// Kept: `places` is the length of the picture that is lent, not of the file. A file, the places and what is expected stay three arguments:
// `check_both` hands them on once, and a struct would have to be named, with its fields, at each of its five calls.
use crate::lent::{BEFORE, answered, expected, holds};
use crate::pgm_writing::Picture;
use lepsarvu::pictures;
use std::array;
use test_support::fillers::byte_filler;
use test_support::reporting::Checks;

// The places for the columns and the rows, before a call.
const SIDES_BEFORE: (u16, u16) = (BEFORE, BEFORE);

// What a reader is to answer, and to leave as the columns and the rows.
fn sides(e: Result<Picture, u16>) -> (u16, (u16, u16)) {
    expected(SIDES_BEFORE, e.map(|p| (p.columns, p.rows)))
}

// A reading into so many places of a filled buffer. A refused one puts no pixels there.
fn check_reading(t: &mut Checks, file: &[u8], places: usize, e: Result<Picture, u16>) {
    let mut picture: [u8; 40] = array::from_fn(byte_filler);
    let lent = &mut picture[..places.min(40)];
    let got = answered(SIDES_BEFORE, |(columns, rows)| {
        pictures::lepsarvu_read_pgm(file, lent, columns, rows)
    });
    t.check(got == sides(e));
    t.check(holds(&picture, e.map_or(&[], |p| p.pixels)));
}

// The reader that is lent no picture, then the other.
fn check_both(t: &mut Checks, file: &[u8], places: usize, e: Result<Picture, u16>) {
    let got = answered(SIDES_BEFORE, |(columns, rows)| {
        pictures::lepsarvu_check_pgm(file, columns, rows)
    });
    t.check(got == sides(e));
    check_reading(t, file, places, e);
}

// Files of the same picture, 3 by 2: the single form; each white space; comments; five digits; pixels that look like white space
// and a comment.
const SAME: [&[u8]; 6] = [
    b"P5\n3 2\n255\n\xC8\x00\xFF\n#5",
    b"P5 3\t2\r255 \xC8\x00\xFF\n#5",
    b"P5\r\n3 \n\t2\r\n255\t\xC8\x00\xFF\n#5",
    b"P5\n# 9\n3 2\n#\n#\r# 9\n255\r\xC8\x00\xFF\n#5",
    b"P5#9\n3#\n2#9 9\n255\n\xC8\x00\xFF\n#5",
    b"P5\n00003 00002\n00255\n\xC8\x00\xFF\n#5",
];

const PICTURE: Picture = Picture {
    columns: 3,
    rows: 2,
    pixels: b"\xC8\x00\xFF\n#5",
};

const SPACE: Picture = Picture {
    columns: 2,
    rows: 3,
    pixels: b"\n\r #9\n",
};

const LETTERS: Picture = Picture {
    columns: 2,
    rows: 12,
    pixels: b"ABCDEFGHIJKLMNOPQRSTUVWX",
};

pub(crate) fn files() -> Checks {
    let mut t = Checks::new();
    for file in SAME {
        check_both(&mut t, file, 6, Ok(PICTURE));
    }
    check_both(&mut t, b"P5\n2 3\n255\n\n\r #9\n", 6, Ok(SPACE));
    let letters = b"P5 2 12 255\nABCDEFGHIJKLMNOPQRSTUVWX";
    check_both(&mut t, letters, 24, Ok(LETTERS));
    t
}

// A picture that is too short or too long; the reader that is lent none does not mind.
pub(crate) fn lengths() -> Checks {
    let mut t = Checks::new();
    for places in [0, 5, 7] {
        check_reading(&mut t, SAME[0], places, Err(5));
    }
    t
}

// The start, a number, white space or the byte before the pixels is not there or another; a comment in the wrong place or without
// end; six digits.
const HEADERS: [&[u8]; 18] = [
    b"",
    b"P",
    b"P5",
    b"P2\n3 2\n255\n\xC8\x00\xFF\n#5",
    b"p5\n3 2\n255\n\xC8\x00\xFF\n#5",
    b"\nP5\n3 2\n255\n\xC8\x00\xFF\n#5",
    b"P53 2\n255\n\xC8\x00\xFF\n#5",
    b"P5\n3\x0B2\n255\n\xC8\x00\xFF\n#5",
    b"P5\n3 2\x0C255\n\xC8\x00\xFF\n#5",
    b"P5\n3 +2\n255\n\xC8\x00\xFF\n#5",
    b"P5\n3 2\n\xC8\x00\xFF\n#5",
    b"P5\n3 2\n255",
    b"P5\n3 2\n255\x0B\xC8\x00\xFF\n#5",
    b"P5\n3 2\n255#9\n\xC8\x00\xFF\n#5",
    b"P5\n3 2 #255 \xC8\x00\xFF\r#5",
    b"P5\n000003 2\n255\n\xC8\x00\xFF\n#5",
    b"P5\n3 000002\n255\n\xC8\x00\xFF\n#5",
    b"P5\n3 2\n000255\n\xC8\x00\xFF\n#5",
];

pub(crate) fn headers() -> Checks {
    let mut t = Checks::new();
    for &file in &HEADERS {
        check_both(&mut t, file, 6, Err(16));
    }
    t
}

// A file, the places that are lent, and the refusal of both readers.
type Refused = (&'static [u8], usize, u16);

fn check_each(files: &[Refused]) -> Checks {
    let mut t = Checks::new();
    for (file, places, refusal) in files {
        check_both(&mut t, file, *places, Err(*refusal));
    }
    t
}

// A side outside 2 to 129, or 65,536 more than a lawful one; a greatest grey that is not 255; a pixel too few or too many.
const REFUSED: [Refused; 15] = [
    (b"P5\n1 6\n255\n\xC8\x00\xFF\n#5", 6, 1),
    (b"P5\n0 6\n255\n", 0, 1),
    (b"P5\n130 2\n255\n\xC8\x00\xFF\n#5", 6, 1),
    (b"P5\n65538 3\n255\n\xC8\x00\xFF\n#5", 6, 1),
    (b"P5\n6 1\n255\n\xC8\x00\xFF\n#5", 6, 1),
    (b"P5\n6 0\n255\n", 0, 1),
    (b"P5\n2 130\n255\n\xC8\x00\xFF\n#5", 6, 1),
    (b"P5\n3 65538\n255\n\xC8\x00\xFF\n#5", 6, 1),
    (b"P5\n3 2\n254\n\xC8\x00\xFF\n#5", 6, 17),
    (b"P5\n3 2\n256\n\xC8\x00\xFF\n#5", 6, 17),
    (b"P5\n3 2\n65791\n\xC8\x00\xFF\n#5", 6, 17),
    (b"P5\n3 2\n255\n", 6, 18),
    (b"P5\n3 2\n255\n\xC8\x00\xFF\n#", 6, 18),
    (b"P5\n3 2\n255\n\xC8\x00\xFF\n#5\n", 6, 18),
    (b"P5\n3 2\n255\r\n\xC8\x00\xFF\n#5", 6, 18),
];

pub(crate) fn refusals() -> Checks {
    check_each(&REFUSED)
}

// Each refusal with all later ones besides, and with each of them alone.
const ORDER: [Refused; 14] = [
    (b"P5\n1 2\n254#\xC8", 5, 16),
    (b"P5\n1 6\n255#\xC8\x00\xFF\n#5", 6, 16),
    (b"P5\n3 2\n254#\xC8\x00\xFF\n#5", 6, 16),
    (b"P5\n3 2\n255#\xC8\x00\xFF\n#", 6, 16),
    (b"P5\n3 2\n255#\xC8\x00\xFF\n#5", 5, 16),
    (b"P5\n1 2\n254\n\xC8", 5, 1),
    (b"P5\n6 1\n256\n\xC8\x00\xFF\n#5", 6, 1),
    (b"P5\n6 1\n255\n\xC8\x00\xFF\n#", 6, 1),
    (b"P5\n6 1\n255\n\xC8\x00\xFF\n#5", 5, 1),
    (b"P5\n3 2\n254\n\xC8\x00\xFF\n#", 5, 17),
    (b"P5\n3 2\n254\n\xC8\x00\xFF\n#", 6, 17),
    (b"P5\n3 2\n256\n\xC8\x00\xFF\n#5", 7, 17),
    (b"P5\n3 2\n255\n\xC8\x00\xFF\n#", 5, 18),
    (b"P5\n3 2\n255\n\xC8\x00\xFF\n#5\n", 7, 18),
];

pub(crate) fn order() -> Checks {
    check_each(&ORDER)
}
