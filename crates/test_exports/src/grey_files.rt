// A small file with black and white, byte after byte as documents 01 and 02 have it (P5): its shape section counts 6.
// Kept: refusals are numbers, for the reason at `expected` in `lent`.
use crate::files::{SMALL_LEVELS, SMALL_READINGS, check_both, check_reading};
use crate::lent::{TALL, faulty, twice_faulty, with_black_white};
use crate::parts::code;
use crate::pictures::{Piece, check_rebuilt};
use crate::writing::Contents;
use crate::{handed, parts, writing};
use pyramid::Settings;
use test_support::reporting::Checks;

// The small file of `files` with black 16 and white 235 after k.
const FILE: [u8; 44] =
    *b"\x06\x00\x03\x00\x02\x00\x00\x00\x05\x00\x10\x00\xEB\x00\x01\x00\x07\x00\x02\x00\x02\x09\x00\x00\x00\x01\x00\x00\xC8\x42\x06\x00\x01\x00\xFF\xFF\x00\x01\xB7\xFD\x49\x02\xE0\xFF";

// C, R, N, k, black and white of the file.
const SHAPE: [u16; 6] = [3, 2, 0, 5, 16, 235];

// The file with another count of the shape section, other numbers there and another bin.
fn file_of(count: u16, shape: [u16; 6], bin: u16) -> [u8; 44] {
    let mut file = FILE;
    file[..2].copy_from_slice(&count.to_le_bytes());
    for (at, number) in [2, 4, 6, 8, 10, 12].into_iter().zip(shape) {
        file[at..at + 2].copy_from_slice(&number.to_le_bytes());
    }
    file[16..18].copy_from_slice(&bin.to_le_bytes());
    file
}

// Black and white, how many bytes are lent, and the answer: the exact bytes, and more; too few, which are as many as the file of every grey
// has; black of 0 or white of 255, not both.
const WRITTEN: [(u16, u16, usize, Result<(), u16>); 8] = [
    (16, 235, 44, Ok(())),
    (16, 235, 50, Ok(())),
    (16, 235, 43, Err(8)),
    (16, 235, 40, Err(8)),
    (0, 254, 44, Ok(())),
    (1, 255, 44, Ok(())),
    (0, 1, 44, Ok(())),
    (254, 255, 44, Ok(())),
];

// The writer, and both readers of the file.
pub(crate) fn written() -> Checks {
    let mut t = Checks::new();
    for (black, white, room, e) in WRITTEN {
        let file = file_of(6, [3, 2, 0, 5, black, white], 7);
        let settings = with_black_white(parts::small(7), black, white);
        let contents = Contents {
            settings,
            readings: SMALL_READINGS,
            levels: &SMALL_LEVELS[..6],
        };
        t.check(writing::gives(contents, room, e.map(|()| file.as_slice())));
        check_both(&mut t, &file, Ok(settings));
    }
    t
}

// With readings, a level buffer and a file buffer that would be refused.
fn check_unset(t: &mut Checks, faults: &[(Settings, u16)]) {
    for &(settings, refusal) in faults {
        let contents = Contents {
            settings,
            readings: [code(256, 0), code(1, 0)],
            levels: &SMALL_LEVELS[..6],
        };
        t.check(writing::gives(contents, 171, Err(refusal)));
    }
}

// The writer's refusals of settings.
pub(crate) fn unset() -> Checks {
    let mut t = Checks::new();
    check_unset(&mut t, &faulty(TALL));
    check_unset(&mut t, &twice_faulty(TALL));
    t
}

// The count and the numbers of the shape section, a bin, and the refusals, of the readers that are lent no level buffer or the right one, and
// where it is a place too short. Another count: 4 leaves black and white to be the bins' count and a bin. 0 and 255, alone and with other faults.
// Black at white with each fault before it and after it; each other form of 19. The bin, after 6.
const SHAPES: [(u16, [u16; 6], u16, u16, u16); 27] = [
    (5, SHAPE, 7, 10, 10),
    (7, SHAPE, 7, 10, 10),
    (0, SHAPE, 7, 10, 10),
    (262, SHAPE, 7, 10, 10),
    (4, SHAPE, 7, 10, 6),
    (4, [3, 2, 0, 5, 1, 235], 7, 10, 6),
    (6, [3, 2, 0, 5, 0, 255], 7, 10, 10),
    (6, [1, 2, 7, 2, 0, 255], 0, 10, 10),
    (6, [1, 2, 0, 5, 16, 16], 7, 1, 1),
    (6, [3, 130, 0, 5, 16, 16], 7, 1, 1),
    (6, [3, 2, 7, 5, 16, 16], 7, 13, 13),
    (6, [4, 3, 1, 5, 16, 16], 7, 14, 14),
    (6, [3, 2, 1, 5, 16, 16], 7, 15, 15),
    (6, [3, 2, 0, 7, 16, 16], 7, 2, 2),
    (6, [3, 2, 0, 5, 16, 16], 7, 19, 19),
    (6, [3, 2, 0, 5, 16, 16], 0, 19, 19),
    (6, [3, 2, 0, 5, 0, 0], 7, 19, 19),
    (6, [3, 2, 0, 5, 255, 255], 7, 19, 19),
    (6, [3, 2, 0, 5, 235, 16], 7, 19, 19),
    (6, [3, 2, 0, 5, 255, 0], 7, 19, 19),
    (6, [3, 2, 0, 5, 16, 256], 7, 19, 19),
    (6, [3, 2, 0, 5, 256, 257], 7, 19, 19),
    (6, [3, 2, 0, 5, 0, 256], 7, 19, 19),
    (6, [3, 2, 0, 5, 0, 65535], 7, 19, 19),
    (6, [3, 2, 0, 5, 256, 255], 7, 19, 19),
    (6, SHAPE, 0, 3, 6),
    (6, SHAPE, 256, 3, 6),
];

pub(crate) fn shapes() -> Checks {
    let mut t = Checks::new();
    for &(count, shape, bin, refusal, short) in &SHAPES {
        let file = file_of(count, shape, bin);
        check_both(&mut t, &file, Err(refusal));
        check_reading(&mut t, &file, 5, Err(short));
    }
    t
}

// The beginnings of a file that are shorter than it: 9 as far as the six numbers are not all present, and then a refusal.
fn check_beginnings(t: &mut Checks, file: &[u8; 44], refusal: u16) {
    for n in 0..44 {
        let e = if n < 14 { 9 } else { refusal };
        check_both(t, &file[..n], Err(e));
    }
}

// Cut at each byte: the lawful file, one of 0 and 255, one with black at white, and one with a kernel of 7 besides.
pub(crate) fn cut() -> Checks {
    let mut t = Checks::new();
    check_beginnings(&mut t, &FILE, 9);
    check_beginnings(&mut t, &file_of(6, [3, 2, 0, 5, 0, 255], 7), 10);
    check_beginnings(&mut t, &file_of(6, [3, 2, 0, 5, 16, 16], 7), 19);
    check_beginnings(&mut t, &file_of(6, [3, 2, 0, 7, 16, 16], 7), 2);
    t
}

// A place of the file, the byte there and the refusal: a fault in each section after the shape.
const FAULTS: [(usize, u8, u16); 6] = [
    (14, 2, 10),
    (17, 1, 3),
    (18, 1, 10),
    (20, 3, 4),
    (30, 5, 10),
    (33, 3, 11),
];

// The file's own faults, a byte more, and level buffers of other lengths.
pub(crate) fn faults() -> Checks {
    let mut t = Checks::new();
    let mut longer: [u8; 45] = [0; 45];
    longer[..44].copy_from_slice(&FILE);
    check_both(&mut t, &longer, Err(12));
    check_reading(&mut t, &FILE, 7, Err(6));
    check_reading(&mut t, &FILE, 5, Err(6));
    for (place, byte, refusal) in FAULTS {
        let mut file = FILE;
        file[place.min(43)] = byte;
        check_both(&mut t, &file, Err(refusal));
    }
    t
}

// Reads the file and rebuilds from what it hands out: the indices at bin 7, clamped to 16 and 235.
pub(crate) fn rebuilt() -> Checks {
    let mut t = Checks::new();
    let mut levels: [i16; 6] = [0; 6];
    let (read, got) = handed::by_reading(&FILE, &mut levels);
    t.check(read == 0);
    let piece = Piece {
        settings: &got.settings,
        pixels: &[16, 16, 235, 16, 235, 16],
        indices: &levels,
        values: &[7, -7, 1792, -4095, 4095, -224],
    };
    check_rebuilt(&mut t, piece);
    t
}
