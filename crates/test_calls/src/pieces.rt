// Worked pieces of document 01.
use crate::buffers::{Node, Put};
use crate::calling::Case;
use crate::{calling, faults};
use pyramid::Settings;
use refusals::Refusal;
use std::array;
use test_support::comparing::first_difference;
use test_support::fillers::{first_changed, lawful_index, work_filler};
use test_support::reporting::Checks;
use test_support::rooms::Lengths;

// The settings of a piece: black is 0 and white is 255, and its bins that are not 0 are the first two at most.
// Kept: no conversion that a `From` could stand for, but the numbers that the pieces differ in: each of its three uses, written as a struct,
// would repeat black, white and five bins of 0.
fn settings(columns: u16, rows: u16, depth: u16, kernel: u16, first: u16, second: u16) -> Settings {
    Settings {
        columns,
        rows,
        depth,
        kernel,
        black: 0,
        white: 255,
        bins: [first, second, 0, 0, 0, 0, 0],
    }
}

// 3 by 3, N = 1, k = 4, black 0 and white 255, bins 10 and 4.
const PIECE_A: Settings = Settings {
    columns: 3,
    rows: 3,
    depth: 1,
    kernel: 4,
    black: 0,
    white: 255,
    bins: [10, 4, 0, 0, 0, 0, 0],
};

// Level 1 first, and of each level its nodes row after row.
const INDICES_A: [i16; 13] = [6, 6, 6, 6, -3, -3, -3, -3, 7, -3, -3, -3, -3];

const AVERAGES_A: [i32; 13] = [25, 25, 25, 25, 0, 0, 0, 0, 100, 0, 0, 0, 0];

const VALUES_A: [i32; 13] = [24, 24, 24, 24, -6, -6, -6, -6, 94, -6, -6, -6, -6];

// What a rebuilding answers and leaves.
fn check_rebuilt(
    t: &mut Checks,
    answer: Result<(), Refusal>,
    values: &[i32],
    pixels: &[u8],
    picture: &[u8],
    work: &[i32],
) {
    t.check(answer.is_ok());
    t.check(first_difference(work, values).is_none());
    t.check(first_difference(picture, pixels).is_none());
}

fn check_piece_a_coded(t: &mut Checks) {
    let picture: [u8; 9] = [0, 0, 0, 0, 100, 0, 0, 0, 0];
    let mut levels: [i16; 13] = array::from_fn(lawful_index);
    let mut work: [i32; 14] = array::from_fn(work_filler);
    let answer = pyramid::coding(PIECE_A, &picture, &mut levels, &mut work);
    t.check(answer.is_ok());
    t.check(levels == INDICES_A);
    t.check(first_difference(&work, &AVERAGES_A).is_none());
    t.check(first_changed(&work, 13, work_filler).is_none());
}

fn check_piece_a_rebuilt(t: &mut Checks) {
    let mut picture: [u8; 9] = [7; 9];
    let mut work: [i32; 14] = array::from_fn(work_filler);
    let answer = pyramid::rebuilding(PIECE_A, &INDICES_A, &mut picture, &mut work);
    check_rebuilt(
        t,
        answer,
        &VALUES_A,
        &[0, 0, 0, 0, 94, 0, 0, 0, 0],
        &picture,
        &work,
    );
    t.check(first_changed(&work, 13, work_filler).is_none());
}

// T of A and its bounds. That a call is accepted counts as a check of its own, here and in `check_smallest`: the program's output states the
// count of checks.
fn check_piece_a_sizes(t: &mut Checks) {
    let n = pyramid::total_nodes(PIECE_A);
    t.check(n.is_ok());
    t.check(n == Ok(13));
    let b = pyramid::level_bounds(PIECE_A);
    t.check(b.is_ok());
    t.check(b == Ok([7, 2, 0, 0, 0, 0, 0]));
}

pub(crate) fn piece_a() -> Checks {
    let mut t = Checks::new();
    check_piece_a_coded(&mut t);
    check_piece_a_rebuilt(&mut t);
    check_piece_a_sizes(&mut t);
    t
}

// The smallest picture: 2 by 2, N = 0.
fn check_smallest(t: &mut Checks) {
    let s = settings(2, 2, 0, 4, 1, 0);
    let n = pyramid::total_nodes(s);
    t.check(n.is_ok());
    t.check(n == Ok(4));
    let coding = Case {
        settings: s,
        lengths: Lengths {
            picture: 4,
            levels: 4,
            work: 4,
        },
        put: None,
        dot: None,
        answer: Ok(()),
    };
    let put = Put {
        place: 3,
        index: 4096,
        node: Some(Node {
            value: 4096,
            pixel: 255,
        }),
    };
    let rebuilding = Case {
        put: Some(put),
        ..coding
    };
    t.check(calling::coding_gives(coding));
    t.check(calling::rebuilding_gives(rebuilding));
}

// A size and a depth that are refused: C or R of 1 or 130; C = 4, R = 4 or both with N = 1; N = 7, whatever divides, and with C
// or R of 1.
const REFUSED_SIZES: [(u16, u16, u16, Refusal); 13] = [
    (1, 3, 1, Refusal::Size),
    (130, 3, 1, Refusal::Size),
    (3, 1, 1, Refusal::Size),
    (3, 130, 1, Refusal::Size),
    (4, 3, 1, Refusal::Columns),
    (3, 4, 1, Refusal::Rows),
    (4, 4, 1, Refusal::Columns),
    (129, 129, 7, Refusal::Depth),
    (128, 129, 7, Refusal::Depth),
    (129, 128, 7, Refusal::Depth),
    (3, 3, 7, Refusal::Depth),
    (1, 129, 7, Refusal::Size),
    (129, 1, 7, Refusal::Size),
];

pub(crate) fn sizes() -> Checks {
    let mut t = Checks::new();
    for &(columns, rows, depth, refusal) in &REFUSED_SIZES {
        let s = settings(columns, rows, depth, 4, 1, 1);
        faults::check(&mut t, s, Err(refusal));
    }
    check_smallest(&mut t);
    t
}

// Columns and rows, and the depth or the refusal that is answered.
const DEEPEST: [(u16, u16, Result<u16, Refusal>); 13] = [
    (129, 129, Ok(6)),
    (97, 97, Ok(5)),
    (2, 129, Ok(0)),
    (129, 2, Ok(0)),
    (65, 129, Ok(6)),
    (3, 3, Ok(1)),
    (2, 2, Ok(0)),
    (1, 3, Err(Refusal::Size)),
    (3, 1, Err(Refusal::Size)),
    (130, 3, Err(Refusal::Size)),
    (3, 130, Err(Refusal::Size)),
    (0, 0, Err(Refusal::Size)),
    (65535, 65535, Err(Refusal::Size)),
];

// Refusal and depth are a check each: the program's output states the count of checks.
pub(crate) fn deepest_depths() -> Checks {
    let mut t = Checks::new();
    for &(columns, rows, answer) in &DEEPEST {
        let d = pyramid::deepest_depth(columns, rows);
        t.check(d.err() == answer.err());
        t.check(d.ok() == answer.ok());
    }
    t
}

// 2 by 2, bin 255.
fn bin_255() -> Settings {
    settings(2, 2, 0, 5, 255, 0)
}

// Rebuilds from one index that is not 0.
fn check_rebuilt_from(t: &mut Checks, index: i16, value: i32, pixel: u8) {
    let indices: [i16; 4] = [0, 0, 0, index];
    let mut picture: [u8; 4] = [7; 4];
    let mut work: [i32; 4] = [7; 4];
    let answer = pyramid::rebuilding(bin_255(), &indices, &mut picture, &mut work);
    check_rebuilt(
        t,
        answer,
        &[0, 0, 0, value],
        &[0, 0, 0, pixel],
        &picture,
        &work,
    );
}

// Index 17 at bin 255 is 4,335.
fn check_refused_index(t: &mut Checks, place: usize, index: i16) {
    let case = Case {
        settings: bin_255(),
        lengths: Lengths {
            picture: 4,
            levels: 4,
            work: 5,
        },
        put: Some(Put::unlawful(place, index)),
        dot: None,
        answer: Err(Refusal::Index),
    };
    t.check(calling::rebuilding_gives(case));
}

pub(crate) fn index_limit() -> Checks {
    let mut t = Checks::new();
    check_rebuilt_from(&mut t, 16, 4080, 255);
    check_rebuilt_from(&mut t, -16, -4080, 0);
    check_refused_index(&mut t, 0, 17);
    check_refused_index(&mut t, 3, 17);
    check_refused_index(&mut t, 0, -17);
    check_refused_index(&mut t, 3, -17);
    t
}
