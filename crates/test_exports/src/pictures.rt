// Coding and rebuilding of 3 columns and 5 rows, N = 1, k = 6, every grey, bins 7 and 2. What is expected comes from tests/reference.
use lepsarvu::closed;
use std::array;
use test_support::comparing::first_difference;
use test_support::fillers::{byte_filler, first_changed, unlawful_index, work_filler};
use test_support::reporting::Checks;

// The settings, as the exported functions take them.
pub(crate) const NUMBERS: [u16; 13] = [3, 5, 1, 6, 0, 255, 7, 2, 0, 0, 0, 0, 0];

const PICTURE: [u8; 15] = [
    0, 255, 17, 90, 3, 140, 61, 200, 38, 250, 12, 77, 129, 5, 231,
];

// Level 1 first: 2 columns and 3 rows.
pub(crate) const INDICES: [i16; 21] = [
    41, 54, 59, 41, 47, 39, -10, 23, -15, -2, -14, 6, -10, 14, -5, 20, -12, 0, 5, -11, 22,
];

// What is shown of them; the first pixel is clamped.
pub(crate) const SHOWN: [u8; 15] = [0, 255, 16, 87, 0, 136, 63, 200, 36, 251, 9, 75, 127, 6, 229];

// A picture and the indices of its levels, of which one is handed in and the other left, and the values that are left in the work buffer.
// Kept: settings are the numbers that the exported functions take.
#[derive(Clone, Copy)]
pub(crate) struct Piece<'a> {
    pub settings: &'a [u16; 13],
    pub pixels: &'a [u8],
    pub indices: &'a [i16],
    pub values: &'a [i32],
}

// A coding leaves the indices and the values, and other places as they were.
fn check_left<F: FnOnce(&mut [i16], &mut [i32]) -> u16>(t: &mut Checks, p: Piece, call: F)
    requires { F.IsAlwaysCallable call }
{
    let n = p.indices.len();
    let mut levels: [i16; 24] = array::from_fn(unlawful_index);
    let mut work: [i32; 24] = array::from_fn(work_filler);
    let answer = call(&mut levels[..n.min(24)], &mut work);
    t.check(answer == 0);
    t.check(first_difference(&levels, p.indices).is_none());
    t.check(first_difference(&work, p.values).is_none());
    t.check(first_changed(&work, n, work_filler).is_none());
}

pub(crate) fn check_coded(t: &mut Checks, p: Piece) {
    check_left(t, p, |levels, work| {
        lepsarvu::lepsarvu_coding(p.settings, p.pixels, levels, work)
    });
}

pub(crate) fn check_closed(t: &mut Checks, p: Piece) {
    check_left(t, p, |levels, work| {
        closed::lepsarvu_closed_loop_coding(p.settings, p.pixels, levels, work)
    });
}

// Rebuilding from the indices leaves the picture and the unclamped values.
pub(crate) fn check_rebuilt(t: &mut Checks, p: Piece) {
    let mut picture: [u8; 16] = array::from_fn(byte_filler);
    let mut work: [i32; 24] = array::from_fn(work_filler);
    let lent = &mut picture[..p.pixels.len().min(16)];
    let answer = lepsarvu::lepsarvu_rebuilding(p.settings, p.indices, lent, &mut work);
    t.check(answer == 0);
    t.check(first_difference(&picture, p.pixels).is_none());
    t.check(first_difference(&work, p.values).is_none());
    t.check(first_changed(&work, p.indices.len(), work_filler).is_none());
}

// Open-loop the work buffer has the averages.
fn check_open_piece(t: &mut Checks) {
    let coded = Piece {
        settings: &NUMBERS,
        pixels: &PICTURE,
        indices: &INDICES,
        values: &[
            83, 109, 118, 83, 95, 79, 0, 255, 17, 90, 3, 140, 61, 200, 38, 250, 12, 77, 129, 5, 231,
        ],
    };
    check_coded(t, coded);
}

// Closed-loop it has the rebuilt values: one index is another.
fn check_closed_piece(t: &mut Checks) {
    let mut indices = INDICES;
    indices[11] = 7;
    let coded = Piece {
        settings: &NUMBERS,
        pixels: &PICTURE,
        indices: &indices,
        values: &[
            82, 108, 118, 82, 94, 78, -3, 255, 16, 87, 0, 143, 63, 200, 36, 251, 9, 75, 127, 6, 229,
        ],
    };
    check_closed(t, coded);
}

fn check_shown_piece(t: &mut Checks) {
    let shown = Piece {
        settings: &NUMBERS,
        pixels: &SHOWN,
        indices: &INDICES,
        values: &[
            82, 108, 118, 82, 94, 78, -3, 255, 16, 87, 0, 136, 63, 200, 36, 251, 9, 75, 127, 6, 229,
        ],
    };
    check_rebuilt(t, shown);
}

pub(crate) fn accepted() -> Checks {
    let mut t = Checks::new();
    check_open_piece(&mut t);
    check_closed_piece(&mut t);
    check_shown_piece(&mut t);
    t
}

// Rebuilding of 3 columns and 2 rows, N = 0, k = 5, every grey, from one index that is not 0.
// Kept: the exported function answers a number.
fn rebuilding(bin: u16, index: i16, picture: &mut [u8; 6], work: &mut [i32; 7]) -> u16 {
    lepsarvu::lepsarvu_rebuilding(
        &[3, 2, 0, 5, 0, 255, bin, 0, 0, 0, 0, 0, 0],
        &[0, 0, 0, index, 0, 0],
        picture,
        work,
    )
}

// A bin, the index, its value and its pixel: index times bin of exactly 4,096 and -4,096.
const REBUILT: [(u16, i16, i32, u8); 4] = [
    (1, 4096, 4096, 255),
    (1, -4096, -4096, 0),
    (64, 64, 4096, 255),
    (64, -64, -4096, 0),
];

// Index times bin of 4,097 and -4,097: 11.
const REFUSED: [(u16, i16); 4] = [(1, 4097), (1, -4097), (17, 241), (17, -241)];

pub(crate) fn limits() -> Checks {
    let mut t = Checks::new();
    for (bin, index, value, pixel) in REBUILT {
        let mut picture: [u8; 6] = [99; 6];
        let mut work: [i32; 7] = array::from_fn(work_filler);
        let answer = rebuilding(bin, index, &mut picture, &mut work);
        t.check(answer == 0);
        t.check(picture == [0, 0, 0, pixel, 0, 0]);
        t.check(first_difference(&work, &[0, 0, 0, value, 0, 0]).is_none());
        t.check(first_changed(&work, 6, work_filler).is_none());
    }
    for (bin, index) in REFUSED {
        let mut picture: [u8; 6] = array::from_fn(byte_filler);
        let mut work: [i32; 7] = array::from_fn(work_filler);
        let answer = rebuilding(bin, index, &mut picture, &mut work);
        t.check(answer == 11);
        t.check(first_changed(&picture, 0, byte_filler).is_none());
        t.check(first_changed(&work, 0, work_filler).is_none());
    }
    t
}
