// PGM pictures that are written, byte after byte as document 02 has them (P2).
// Kept: refusals are numbers, for the reason at `expected` in `lent`.
use crate::lent::{BEFORE, answered, expected, holds};
use lepsarvu::pictures;
use std::array;
use test_support::fillers::byte_filler;
use test_support::reporting::Checks;

// Columns and rows; the size that the call leaves, which is 9 and the digits of both sides and the pixels, or the refusal.
const SIZES: [(u16, u16, Result<usize, u16>); 10] = [
    (3, 2, Ok(17)),
    (9, 10, Ok(102)),
    (100, 99, Ok(9914)),
    (129, 129, Ok(16656)),
    (1, 2, Err(1)),
    (130, 2, Err(1)),
    (65535, 2, Err(1)),
    (2, 1, Err(1)),
    (2, 130, Err(1)),
    (2, 65535, Err(1)),
];

pub(crate) fn sizes() -> Checks {
    let mut t = Checks::new();
    for &(columns, rows, e) in &SIZES {
        let before = usize::from(BEFORE);
        let got = answered(before, |size| {
            pictures::lepsarvu_pgm_size(columns, rows, size)
        });
        t.check(got == expected(before, e));
    }
    t
}

// A picture of so many columns and rows.
#[derive(Clone, Copy)]
pub(crate) struct Picture<'a> {
    pub columns: u16,
    pub rows: u16,
    pub pixels: &'a [u8],
}

// A writing into so many bytes of a filled buffer, and what it leaves: the file and its size; a refused one leaves both as they were.
pub(crate) fn check(t: &mut Checks, p: Picture, room: usize, e: Result<&[u8], u16>) {
    let before = usize::from(BEFORE);
    let mut out: [u8; 40] = array::from_fn(byte_filler);
    let lent = &mut out[..room.min(40)];
    let got = answered(before, |size| {
        pictures::lepsarvu_write_pgm(p.columns, p.rows, p.pixels, lent, size)
    });
    let size = e.map(|file| file.len());
    t.check(got == expected(before, size));
    t.check(holds(&out, e.unwrap_or(&[])));
}

// A picture, the bytes that are lent, and the file: the exact bytes, and more; piece A; sides of two digits.
const ACCEPTED: [(u16, u16, &[u8], usize, &[u8]); 5] = [
    (
        3,
        2,
        b"\xC8\x00\xFF\n#5",
        17,
        b"P5\n3 2\n255\n\xC8\x00\xFF\n#5",
    ),
    (
        3,
        2,
        b"\xC8\x00\xFF\n#5",
        40,
        b"P5\n3 2\n255\n\xC8\x00\xFF\n#5",
    ),
    (
        3,
        3,
        b"\x00\x00\x00\x00\x64\x00\x00\x00\x00",
        21,
        b"P5\n3 3\n255\n\x00\x00\x00\x00\x64\x00\x00\x00\x00",
    ),
    (
        2,
        10,
        b"ABCDEFGHIJKLMNOPQRST",
        40,
        b"P5\n2 10\n255\nABCDEFGHIJKLMNOPQRST",
    ),
    (
        12,
        2,
        b"ABCDEFGHIJKLMNOPQRSTUVWX",
        40,
        b"P5\n12 2\n255\nABCDEFGHIJKLMNOPQRSTUVWX",
    ),
];

pub(crate) fn accepted() -> Checks {
    let mut t = Checks::new();
    for &(columns, rows, pixels, room, file) in &ACCEPTED {
        let p = Picture {
            columns,
            rows,
            pixels,
        };
        check(&mut t, p, room, Ok(file));
    }
    t
}

const FIVE: &[u8] = b"\xC8\x00\xFF\n#";

const SIX: &[u8] = b"\xC8\x00\xFF\n#5";

const SEVEN: &[u8] = b"\xC8\x00\xFF\n#5\x07";

// Each refusal alone, and with the later ones besides.
const REFUSED: [(u16, u16, &[u8], usize, u16); 16] = [
    (1, 6, SIX, 40, 1),
    (6, 1, SIX, 40, 1),
    (130, 2, SIX, 40, 1),
    (2, 130, SIX, 40, 1),
    (65535, 2, FIVE, 16, 1),
    (2, 65535, FIVE, 16, 1),
    (1, 6, FIVE, 40, 1),
    (6, 1, SIX, 16, 1),
    (3, 2, FIVE, 40, 5),
    (3, 2, SEVEN, 40, 5),
    (3, 2, b"", 40, 5),
    (3, 2, FIVE, 16, 5),
    (3, 2, SEVEN, 0, 5),
    (3, 2, SIX, 16, 8),
    (3, 2, SIX, 11, 8),
    (3, 2, SIX, 0, 8),
];

pub(crate) fn refusals() -> Checks {
    let mut t = Checks::new();
    for &(columns, rows, pixels, room, refusal) in &REFUSED {
        let p = Picture {
            columns,
            rows,
            pixels,
        };
        check(&mut t, p, room, Err(refusal));
    }
    t
}
