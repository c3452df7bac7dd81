// Pieces coded closed-loop, worked by hand (document 02, P4), and rebuilt.
use pyramid::Settings;
use std::array;
use test_support::comparing::first_difference;
use test_support::fillers::{byte_filler, first_changed, lawful_index, work_filler};
use test_support::reporting::Checks;

// A picture of 3 by 3, N = 1; what its coding leaves, level 1 first, and what is shown.
#[derive(Clone, Copy)]
struct Piece {
    kernel: u16,
    bins: [u16; 7],
    picture: [u8; 9],
    indices: [i16; 13],
    values: [i32; 13],
    shown: [u8; 9],
    bounds: [u16; 7],
}

// Piece A of document 01: the average 25 is rebuilt as 24, so that 76 and -24 are coded below it.
const A: Piece = Piece {
    kernel: 4,
    bins: [10, 4, 0, 0, 0, 0, 0],
    picture: [0, 0, 0, 0, 100, 0, 0, 0, 0],
    indices: [6, 6, 6, 6, -2, -2, -2, -2, 8, -2, -2, -2, -2],
    values: [24, 24, 24, 24, 4, 4, 4, 4, 104, 4, 4, 4, 4],
    shown: [4, 4, 4, 4, 104, 4, 4, 4, 4],
    bounds: [5, 2, 0, 0, 0, 0, 0],
};

// Under kernel 6, all 255 but the corner: the averages 163, 270, 270, 252 are rebuilt as 160 and three times 260, above 255, and EXPAND of
// these is 116, 200, 284 / 200, 235, 270 / 284, 270, 256.
const BRIGHT: Piece = Piece {
    kernel: 6,
    bins: [10, 20, 0, 0, 0, 0, 0],
    picture: [0, 255, 255, 255, 255, 255, 255, 255, 255],
    indices: [8, 13, 13, 13, -12, 5, -3, 5, 2, -2, -3, -2, 0],
    values: [
        160, 260, 260, 260, -4, 250, 254, 250, 255, 250, 254, 250, 256,
    ],
    shown: [0, 250, 254, 250, 255, 250, 254, 250, 255],
    bounds: [5, 10, 0, 0, 0, 0, 0],
};

fn settings(piece: Piece) -> Settings {
    let bins = piece.bins;
    Settings {
        columns: 3,
        rows: 3,
        depth: 1,
        kernel: piece.kernel,
        black: 0,
        white: 255,
        bins,
    }
}

// Its coding, and the rebuilding from what that leaves, which leaves the same values.
fn check(t: &mut Checks, piece: Piece) {
    let s = settings(piece);
    let mut levels: [i16; 13] = array::from_fn(lawful_index);
    let mut work: [i32; 14] = array::from_fn(work_filler);
    t.check(pyramid::closed_loop_coding(s, &piece.picture, &mut levels, &mut work) == Ok(()));
    t.check(levels == piece.indices);
    t.check(first_difference(&work, &piece.values).is_none());
    t.check(first_changed(&work, 13, work_filler).is_none());
    let mut picture: [u8; 9] = array::from_fn(byte_filler);
    let mut read: [i32; 14] = array::from_fn(work_filler);
    t.check(pyramid::rebuilding(s, &levels, &mut picture, &mut read) == Ok(()));
    t.check(read == work);
    t.check(picture == piece.shown);
    t.check(pyramid::closed_loop_bounds(s) == Ok(piece.bounds));
}

pub(crate) fn pieces() -> Checks {
    let mut t = Checks::new();
    for piece in [A, BRIGHT] {
        check(&mut t, piece);
    }
    t
}
