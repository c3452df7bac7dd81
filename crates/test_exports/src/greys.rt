// Both codings and rebuilding with a black and a white other than 0 and 255 (document 02, P5), worked by hand.
// Kept: refusals are numbers, for the reason at `expected` in `lent`.
use crate::pictures::{Piece, check_closed, check_coded, check_rebuilt};
use crate::refused;
use lepsarvu::closed;
use test_support::reporting::Checks;

// Piece A of document 01 as a camera of black 16 and white 116 sees it: 3 by 3, N = 1, k = 4, bins 10 (level 0) and 4 (level 1).
const PIECE_A: [u16; 13] = [3, 3, 1, 4, 16, 116, 10, 4, 0, 0, 0, 0, 0];

// Black and white alone.
const PICTURE: [u8; 9] = [16, 16, 16, 16, 116, 16, 16, 16, 16];

// The levels of such a piece: level 1, of four nodes, then level 0 with its centre.
fn levels<T: Copy>(top: T, edge: T, centre: T) -> [T; 13] {
    [
        top, top, top, top, edge, edge, edge, edge, centre, edge, edge, edge, edge,
    ]
}

// Open-loop: g1 is 16 + 25 = 41, at bin 4 with index 10, since 76 < 82 <= 84, and value 40. The differences are 116 - 41 = 75 and
// 16 - 41 = -25, those of piece A, with indices 7 and -3. Rebuilt: 40 + 70 = 110, and 40 - 30 = 10, which becomes 16.
fn check_open_piece(t: &mut Checks) {
    let indices = levels(10, -3, 7);
    let coded = Piece {
        settings: &PIECE_A,
        pixels: &PICTURE,
        indices: &indices,
        values: &levels(41, 16, 116),
    };
    let shown = Piece {
        settings: &PIECE_A,
        pixels: &[16, 16, 16, 16, 110, 16, 16, 16, 16],
        indices: &indices,
        values: &levels(40, 10, 110),
    };
    check_coded(t, coded);
    check_rebuilt(t, shown);
}

// Closed-loop the differences are 116 - 40 = 76, at bin 10 with index 8, since 150 < 152 <= 170, and 16 - 40 = -24, with index -2, since
// -50 < -48 <= -30. Rebuilt: 40 + 80 = 120, which becomes 116, and 40 - 20 = 20.
fn check_closed_piece(t: &mut Checks) {
    let indices = levels(10, -2, 8);
    let values = levels(40, 20, 120);
    let coded = Piece {
        settings: &PIECE_A,
        pixels: &PICTURE,
        indices: &indices,
        values: &values,
    };
    let shown = Piece {
        pixels: &[20, 20, 20, 20, 116, 20, 20, 20, 20],
        ..coded
    };
    check_closed(t, coded);
    check_rebuilt(t, shown);
}

// 3 columns, 2 rows, N = 0, k = 5.
fn flat(black: u16, white: u16, bin: u16) -> [u16; 13] {
    [3, 2, 0, 5, black, white, bin, 0, 0, 0, 0, 0, 0]
}

// Black and white alone: at bin 7, 16 has index 2, since 21 < 32 <= 35, and value 14, which becomes 16; 235 has index 34, since
// 469 < 470 <= 483, and value 238, which becomes 235.
fn check_flat(t: &mut Checks) {
    let open = Piece {
        settings: &flat(16, 235, 7),
        pixels: &[16, 235, 235, 16, 235, 16],
        indices: &[2, 34, 34, 2, 34, 2],
        values: &[16, 235, 235, 16, 235, 16],
    };
    let closed = Piece {
        values: &[14, 238, 238, 14, 238, 14],
        ..open
    };
    check_coded(t, open);
    check_closed(t, closed);
    check_rebuilt(t, closed);
}

pub(crate) fn pieces() -> Checks {
    let mut t = Checks::new();
    check_open_piece(&mut t);
    check_closed_piece(&mut t);
    check_flat(&mut t);
    t
}

// A bin, indices, their values, and the pixels that are shown between 16 and 235: both ends and those next to them; values beyond, at a
// bin that leaves them, and at the largest.
const SHOWN: [(u16, [i16; 6], [i32; 6], [u8; 6]); 3] = [
    (
        1,
        [16, 15, 17, 235, 236, 234],
        [16, 15, 17, 235, 236, 234],
        [16, 16, 17, 235, 235, 234],
    ),
    (
        7,
        [2, 3, 34, 33, 0, -1],
        [14, 21, 238, 231, 0, -7],
        [16, 21, 235, 231, 16, 16],
    ),
    (
        255,
        [16, -16, 0, 1, 0, -1],
        [4080, -4080, 0, 255, 0, -255],
        [235, 16, 16, 235, 16, 16],
    ),
];

// Level 1 of piece A's settings is never clamped: at 0, below black, and level 0 above it by 30 and 120; and at 120, above white, and
// level 0 below it by 30 and 0.
fn check_unclamped(t: &mut Checks) {
    let below = Piece {
        settings: &PIECE_A,
        pixels: &[30, 30, 30, 30, 116, 30, 30, 30, 30],
        indices: &levels(0, 3, 12),
        values: &levels(0, 30, 120),
    };
    let above = Piece {
        settings: &PIECE_A,
        pixels: &[90, 90, 90, 90, 116, 90, 90, 90, 90],
        indices: &levels(30, -3, 0),
        values: &levels(120, 90, 120),
    };
    check_rebuilt(t, below);
    check_rebuilt(t, above);
}

pub(crate) fn shown() -> Checks {
    let mut t = Checks::new();
    check_unclamped(&mut t);
    for (bin, indices, values, pixels) in &SHOWN {
        let piece = Piece {
            settings: &flat(16, 235, *bin),
            pixels,
            indices,
            values,
        };
        check_rebuilt(&mut t, piece);
    }
    t
}

// A place of the picture, and its pixel: below black and above white, at the first, at a middle and at the last place.
const OUTSIDE: [(usize, u8); 12] = [
    (0, 15),
    (0, 236),
    (0, 0),
    (0, 255),
    (7, 15),
    (7, 236),
    (7, 0),
    (7, 255),
    (14, 15),
    (14, 236),
    (14, 0),
    (14, 255),
];

// The other pixels are lawful.
pub(crate) fn outside() -> Checks {
    let mut t = Checks::new();
    for (place, pixel) in OUTSIDE {
        let mut picture = [200; 16];
        picture[place.min(15)] = pixel;
        refused::check_pixels(&mut t, picture);
    }
    t
}

// Black, white, a pixel among others that are black, and what both codings answer: the ends, and what lies next to them.
const ENDS: [(u8, u8, u8, u16); 14] = [
    (16, 235, 16, 0),
    (16, 235, 15, 20),
    (16, 235, 235, 0),
    (16, 235, 236, 20),
    (0, 254, 254, 0),
    (0, 254, 255, 20),
    (1, 255, 255, 0),
    (1, 255, 0, 20),
    (0, 1, 1, 0),
    (0, 1, 2, 20),
    (254, 255, 255, 0),
    (254, 255, 253, 20),
    (0, 255, 0, 0),
    (0, 255, 255, 0),
];

pub(crate) fn ends() -> Checks {
    let mut t = Checks::new();
    let mut levels: [i16; 6] = [0; 6];
    let mut work: [i32; 6] = [0; 6];
    for (black, white, pixel, answer) in ENDS {
        let settings = flat(black.into(), white.into(), 7);
        let picture = [black, black, black, black, pixel, black];
        let open = lepsarvu::lepsarvu_coding(&settings, &picture, &mut levels, &mut work);
        let closed = closed::lepsarvu_closed_loop_coding(
            &settings,
            &picture,
            &mut levels,
            &mut work,
        );
        t.check(open == answer);
        t.check(closed == answer);
    }
    t
}
