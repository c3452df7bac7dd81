// The limits of indices and readings, in the writer and in both readers: a file of 3 by 2, N = 0, k = 5, every grey, with one index that is not 0.
// Kept: refusals are numbers, for the reason at `expected` in `lent`.
use crate::handed::Handed;
use crate::parts::{Readings, code};
use crate::writing::Contents;
use crate::{handed, parts, writing};
use std::array;
use test_support::fillers::unlawful_index;
use test_support::reporting::Checks;

// The index at a place, and its two bytes as a number: those of its two's complement.
#[derive(Clone, Copy)]
struct Put {
    place: usize,
    index: i16,
    word: u16,
}

// The file without bin, readings and index, byte after byte as document 01 has it.
const BLANK_FILE: [u8; 40] =
    *b"\x04\x00\x03\x00\x02\x00\x00\x00\x05\x00\x01\x00\x00\x00\x02\x00\x00\x00\x00\x00\x00\x00\x00\x00\x00\x00\x06\x00\x00\x00\x00\x00\x00\x00\x00\x00\x00\x00\x00\x00";

// The same with a bin, readings, of which the one before the drier is at byte 16 and the one at the press at byte 21, and an index.
fn file_of(bin: u16, r: Readings, put: Put) -> [u8; 40] {
    let mut file = BLANK_FILE;
    file[12..14].copy_from_slice(&bin.to_le_bytes());
    for (at, code) in [16, 21].into_iter().zip(r) {
        file[at] = code.kind.to_le_bytes()[0];
        file[at + 1..at + 5].copy_from_slice(&code.number.to_le_bytes());
    }
    let at = 28 + 2 * put.place.min(5);
    file[at..at + 2].copy_from_slice(&put.word.to_le_bytes());
    file
}

// The six indices.
fn levels_of(put: Put) -> [i16; 6] {
    let mut levels: [i16; 6] = [0; 6];
    levels[put.place.min(5)] = put.index;
    levels
}

// What both readers hand out, and what the reader leaves in the level buffer: the indices, or all places as they were.
fn check_read(t: &mut Checks, file: &[u8; 40], e: (u16, Handed), indices: Result<[i16; 6], u16>) {
    let before: [i16; 6] = array::from_fn(unlawful_index);
    let mut levels = before;
    t.check(handed::by_checking(file) == e);
    t.check(handed::by_reading(file, &mut levels) == e);
    t.check(levels == indices.unwrap_or(before));
}

// All three calls, the writer into exactly as many bytes as the file has.
fn check(t: &mut Checks, bin: u16, r: Readings, put: Put, e: Result<(), u16>) {
    let file = file_of(bin, r, put);
    let levels = levels_of(put);
    let s = parts::small(bin);
    let contents = Contents {
        settings: s,
        readings: r,
        levels: &levels,
    };
    t.check(writing::gives(contents, 40, e.map(|()| file.as_slice())));
    let handed = handed::expected(e.map(|()| s), r);
    check_read(t, &file, handed, e.map(|()| levels));
}

// A bin, a place, the index there and its word, and what is expected: accepted are index times bin of exactly 4,096 and -4,096, refused those
// beyond.
const INDICES: [(u16, usize, i16, u16, Result<(), u16>); 14] = [
    (1, 0, 4096, 0x1000, Ok(())),
    (1, 1, -4096, 0xF000, Ok(())),
    (1, 2, 4097, 0x1001, Err(11)),
    (1, 3, -4097, 0xEFFF, Err(11)),
    (2, 4, 2048, 0x0800, Ok(())),
    (2, 5, -2048, 0xF800, Ok(())),
    (2, 0, 2049, 0x0801, Err(11)),
    (2, 1, -2049, 0xF7FF, Err(11)),
    (17, 2, 240, 0x00F0, Ok(())),
    (17, 3, -240, 0xFF10, Ok(())),
    (17, 4, 241, 0x00F1, Err(11)),
    (17, 5, -241, 0xFF0F, Err(11)),
    (255, 0, 32767, 0x7FFF, Err(11)),
    (255, 5, -32768, 0x8000, Err(11)),
];

pub(crate) fn indices() -> Checks {
    let mut t = Checks::new();
    for &(bin, place, index, word, e) in &INDICES {
        let put = Put { place, index, word };
        check(&mut t, bin, [code(0, 0), code(2, 9)], put, e);
    }
    t
}

// A kind, a number and what is expected: not fitted with 0 and other numbers; 0 and 100 percent, the smallest, those next above
// 100 and below 0, an infinity, a NaN; fault codes of 1 to 255; other kinds of one byte.
const READINGS: [(u32, u32, Result<(), u16>); 19] = [
    (0, 0, Ok(())),
    (0, 1, Err(4)),
    (0, 0x8000_0000, Err(4)),
    (1, 0, Ok(())),
    (1, 1, Ok(())),
    (1, 0x42C8_0000, Ok(())),
    (1, 0x42C8_0001, Err(4)),
    (1, 0x8000_0000, Err(4)),
    (1, 0x7F80_0000, Err(4)),
    (1, 0x7FC0_0000, Err(4)),
    (1, 0xC0D0_0000, Err(4)),
    (2, 1, Ok(())),
    (2, 255, Ok(())),
    (2, 256, Err(4)),
    (2, 0, Err(4)),
    (2, 4294967295, Err(4)),
    (3, 0, Err(4)),
    (3, 1, Err(4)),
    (255, 9, Err(4)),
];

const PUT: Put = Put {
    place: 4,
    index: -2,
    word: 0xFFFE,
};

// Each before the drier, with a fault code of 7 at the press; and at the press, with 1 percent before the drier.
pub(crate) fn readings() -> Checks {
    let mut t = Checks::new();
    for &(kind, number, e) in &READINGS {
        let tried = code(kind, number);
        check(&mut t, 3, [tried, code(2, 7)], PUT, e);
        check(&mut t, 3, [code(1, 0x3F80_0000), tried], PUT, e);
    }
    t
}
