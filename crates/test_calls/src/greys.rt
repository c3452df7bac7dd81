// Pieces with black and white, worked by hand (document 02, P5): which pixels are coded, and what is shown.
use crate::base::BASE;
use crate::buffers::{Buffers, Dot, set};
use crate::calling::Case;
use crate::{base, calling};
use pyramid::{Manner, Settings};
use refusals::Refusal;
use std::array;
use test_support::fillers::unlawful_index;
use test_support::reporting::Checks;
use test_support::rooms::Lengths;

// A picture of 3 by 3, N = 1, k = 4, of 16 and 235 alone, coded in a manner; what that leaves, level 1 first; what is rebuilt from it, and how
// that is shown with black 16 and white 235, and with 0 and 255. Each row of the picture is one grey, and so each row of the levels is one number.
#[derive(Clone, Copy)]
struct Piece {
    manner: Manner,
    bins: [u16; 7],
    picture: [u8; 9],
    indices: [i16; 13],
    work: [i32; 13],
    values: [i32; 13],
    shown: [u8; 9],
    full: [u8; 9],
}

// Rows 235, 16, 16. Averages: 235 at 0.4 and 16 at 0.6 are 103.6, so 104; 235 at 0.1 and 16 at 0.9 are 37.9, so 38. Bin 4 makes 104 and 36 of
// them. EXPAND of the averages is 91, 71, 51, and of what bin 4 makes 90, 70, 50. The differences 144, -55 and -35 have indices 14, -6 and -4 at
// bin 10, for -55 and -35 are the upper edges: 90 + 140, 70 - 60, 50 - 40.
const DARK: Piece = Piece {
    manner: Manner::OpenLoop,
    bins: [10, 4, 0, 0, 0, 0, 0],
    picture: [235, 235, 235, 16, 16, 16, 16, 16, 16],
    indices: [26, 26, 9, 9, 14, 14, 14, -6, -6, -6, -4, -4, -4],
    work: [104, 104, 38, 38, 235, 235, 235, 16, 16, 16, 16, 16, 16],
    values: [104, 104, 36, 36, 230, 230, 230, 10, 10, 10, 10, 10, 10],
    shown: [230, 230, 230, 16, 16, 16, 16, 16, 16],
    full: [230, 230, 230, 10, 10, 10, 10, 10, 10],
};

// The same, closed-loop: the differences 145, -54 and -34 have indices 14, -5 and -3: 90 + 140, 70 - 50, 50 - 30.
fn dark_closed() -> Piece {
    Piece {
        manner: Manner::ClosedLoop,
        indices: [26, 26, 9, 9, 14, 14, 14, -5, -5, -5, -3, -3, -3],
        work: [104, 104, 36, 36, 230, 230, 230, 20, 20, 20, 20, 20, 20],
        values: [104, 104, 36, 36, 230, 230, 230, 20, 20, 20, 20, 20, 20],
        shown: [230, 230, 230, 20, 20, 20, 20, 20, 20],
        full: [230, 230, 230, 20, 20, 20, 20, 20, 20],
        ..DARK
    }
}

// Rows 16, 235, 235. Averages: 147.4, so 147, and 213.1, so 213; bin 4 makes 148 and 212 of them. EXPAND of the averages is 160, 180, 200, and of
// what bin 4 makes 161, 180, 199. The differences -144, 55 and 35 have indices -12, 5 and 3 at bin 12: 161 - 144, 180 + 60, 199 + 36.
const BRIGHT: Piece = Piece {
    manner: Manner::OpenLoop,
    bins: [12, 4, 0, 0, 0, 0, 0],
    picture: [16, 16, 16, 235, 235, 235, 235, 235, 235],
    indices: [37, 37, 53, 53, -12, -12, -12, 5, 5, 5, 3, 3, 3],
    work: [147, 147, 213, 213, 16, 16, 16, 235, 235, 235, 235, 235, 235],
    values: [148, 148, 212, 212, 17, 17, 17, 240, 240, 240, 235, 235, 235],
    shown: [17, 17, 17, 235, 235, 235, 235, 235, 235],
    full: [17, 17, 17, 240, 240, 240, 235, 235, 235],
};

// The same, closed-loop: the differences -145, 55 and 36 have the same indices.
fn bright_closed() -> Piece {
    let work = BRIGHT.values;
    Piece {
        manner: Manner::ClosedLoop,
        work,
        ..BRIGHT
    }
}

// A buffer that begins with these numbers, and goes on as it was.
fn laid<T: Copy, const N: usize>(buffer: [T; N], first: &[T]) -> [T; N] {
    let mut laid = buffer;
    for (i, number) in first.iter().enumerate() {
        set(&mut laid, i, *number);
    }
    laid
}

// A coding in a manner.
fn coding(manner: Manner, s: Settings, n: Lengths, lent: Buffers) -> calling::Outcome {
    match manner {
        Manner::OpenLoop => calling::coding(s, n, lent),
        Manner::ClosedLoop => calling::closed_loop_coding(s, n, lent),
    }
}

// 3 by 3, N = 1, k = 4.
fn settings(black: u16, white: u16, bins: [u16; 7]) -> Settings {
    Settings {
        columns: 3,
        rows: 3,
        depth: 1,
        kernel: 4,
        black,
        white,
        bins,
    }
}

const THIRTEEN: Lengths = Lengths {
    picture: 9,
    levels: 13,
    work: 13,
};

// Its coding, and the rebuilding from what that leaves; all else stays as it was lent.
fn check_piece(t: &mut Checks, piece: Piece, s: Settings, shown: &[u8]) {
    let filled = Buffers::filled();
    let lent = Buffers {
        picture: laid(filled.picture, &piece.picture),
        levels: array::from_fn(unlawful_index),
        ..filled
    };
    let levels = laid(lent.levels, &piece.indices);
    let work = laid(lent.work, &piece.work);
    let coded = Buffers {
        levels,
        work,
        ..lent
    };
    t.check(coding(piece.manner, s, THIRTEEN, lent) == (Ok(()), coded));
    let read = Buffers { levels, ..filled };
    let rebuilt = Buffers {
        picture: laid(read.picture, shown),
        work: laid(read.work, &piece.values),
        ..read
    };
    t.check(calling::rebuilding(s, THIRTEEN, read) == (Ok(()), rebuilt));
}

// One pixel next to black and to white, and 0 and 255, among pixels that lie between them, at the first place, in the middle and at the last.
fn check_dots(t: &mut Checks, place: usize) {
    for pixel in [0, 15, 236, 255] {
        let case = Case {
            settings: BASE,
            lengths: Lengths {
                picture: base::PIXELS,
                levels: base::NODES,
                work: base::NODES,
            },
            put: None,
            dot: Some(Dot { place, pixel }),
            answer: Err(Refusal::Pixel),
        };
        t.check(calling::coding_gives(case));
    }
}

// 2 by 2, N = 0, bin 1: averages, indices and values are the pixels.
fn smallest(black: u16, white: u16) -> Settings {
    Settings {
        columns: 2,
        rows: 2,
        depth: 0,
        kernel: 4,
        black,
        white,
        bins: [1, 0, 0, 0, 0, 0, 0],
    }
}

const FOUR: Lengths = Lengths {
    picture: 4,
    levels: 4,
    work: 4,
};

const OUTSIDE: Result<(), Refusal> = Err(Refusal::Pixel);

// Black, white, pixels, and what is answered to a coding of these: pixels of both ends, and one below or above in each of the four places.
const PIXELS: [(u16, u16, [u8; 4], Result<(), Refusal>); 14] = [
    (0, 255, [0, 15, 236, 255], Ok(())),
    (16, 235, [16, 235, 17, 234], Ok(())),
    (16, 235, [15, 16, 16, 16], OUTSIDE),
    (16, 235, [235, 236, 235, 235], OUTSIDE),
    (16, 235, [16, 235, 0, 16], OUTSIDE),
    (16, 235, [16, 16, 16, 255], OUTSIDE),
    (0, 254, [0, 1, 253, 254], Ok(())),
    (0, 254, [0, 1, 254, 255], OUTSIDE),
    (1, 255, [255, 254, 2, 1], Ok(())),
    (1, 255, [0, 1, 255, 255], OUTSIDE),
    (254, 255, [254, 255, 255, 254], Ok(())),
    (254, 255, [255, 253, 254, 255], OUTSIDE),
    (0, 1, [0, 1, 1, 0], Ok(())),
    (0, 1, [1, 0, 2, 1], OUTSIDE),
];

// What both codings answer and leave: the pixels, or where they are refused every place as it was.
fn check_pixels(t: &mut Checks, s: Settings, pixels: [u8; 4], answer: Result<(), Refusal>) {
    let filled = Buffers::filled();
    let lent = Buffers {
        picture: laid(filled.picture, &pixels),
        levels: array::from_fn(unlawful_index),
        ..filled
    };
    let left = match answer {
        Ok(()) => Buffers {
            levels: laid(lent.levels, &pixels.map(|pixel| i16::from(pixel))),
            work: laid(lent.work, &pixels.map(|pixel| i32::from(pixel))),
            ..lent
        },
        Err(_) => lent,
    };
    t.check(calling::coding(s, FOUR, lent) == (answer, left));
    t.check(calling::closed_loop_coding(s, FOUR, lent) == (answer, left));
}

// Black, white, indices, and what is shown of them: below black is black, above white is white. With 0 and 255 these are the ends of a byte.
const SHOWN: [(u16, u16, [i16; 4], [u8; 4]); 9] = [
    (16, 235, [15, 16, 235, 236], [16, 16, 235, 235]),
    (16, 235, [-4096, 4096, 0, 255], [16, 235, 16, 235]),
    (16, 235, [256, -1, 100, 17], [235, 16, 100, 17]),
    (0, 255, [15, 16, 235, 236], [15, 16, 235, 236]),
    (0, 255, [-1, 0, 255, 256], [0, 0, 255, 255]),
    (0, 254, [-1, 0, 254, 255], [0, 0, 254, 254]),
    (1, 255, [0, 1, 255, 256], [1, 1, 255, 255]),
    (254, 255, [253, 254, 255, 256], [254, 254, 255, 255]),
    (0, 1, [-1, 0, 1, 2], [0, 0, 1, 1]),
];

// What a rebuilding answers and leaves: the values as they are, and what is shown of them.
fn check_shown(t: &mut Checks, s: Settings, indices: [i16; 4], shown: [u8; 4]) {
    let filled = Buffers::filled();
    let lent = Buffers {
        levels: laid(filled.levels, &indices),
        ..filled
    };
    let left = Buffers {
        picture: laid(lent.picture, &shown),
        work: laid(lent.work, &indices.map(|index| i32::from(index))),
        ..lent
    };
    t.check(calling::rebuilding(s, FOUR, lent) == (Ok(()), left));
}

fn check_pieces(t: &mut Checks) {
    for piece in [DARK, dark_closed(), BRIGHT, bright_closed()] {
        check_piece(t, piece, settings(16, 235, piece.bins), &piece.shown);
        check_piece(t, piece, settings(0, 255, piece.bins), &piece.full);
    }
}

fn check_codings(t: &mut Checks) {
    for &(black, white, pixels, answer) in &PIXELS {
        check_pixels(t, smallest(black, white), pixels, answer);
    }
}

fn check_rebuildings(t: &mut Checks) {
    for &(black, white, indices, shown) in &SHOWN {
        check_shown(t, smallest(black, white), indices, shown);
    }
}

pub(crate) fn all() -> Checks {
    let mut t = Checks::new();
    check_pieces(&mut t);
    for place in [0, 22, 44] {
        check_dots(&mut t, place);
    }
    check_codings(&mut t);
    check_rebuildings(&mut t);
    t
}
