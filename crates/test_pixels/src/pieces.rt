// Pixels worked by hand, and calls with other places and lengths. Where the top is one grey everywhere and all other indices are 0, every pixel is
// that grey, since the weights of EXPAND sum to 1.
use crate::parts::{Asked, Finding, check};
use pixel::RebuiltPixel;
use pyramid::Settings;
use refusals::Refusal;
use test_support::reporting::Tally;

// A column, a row, the pixel and the number of indices read.
type Answer = (u16, u16, u8, u16);

fn check_answers(settings: Settings, levels: &[i16], answers: &[Answer]) -> Tally<Finding> {
    let mut t = Tally::new();
    for &(column, row, pixel, read) in answers {
        let asked = Asked {
            settings,
            column,
            row,
        };
        t.count(check(asked, levels, Ok(RebuiltPixel { pixel, read })));
    }
    t
}

// Document 01's piece A: its rebuilding is 94 at the centre and -6 elsewhere, shown as 0. Read are 1 + 2 x 2: level 1 has no more.
pub(crate) fn piece_a() -> Tally<Finding> {
    let settings = Settings {
        columns: 3,
        rows: 3,
        depth: 1,
        kernel: 4,
        black: 0,
        white: 255,
        bins: [10, 4, 0, 0, 0, 0, 0],
    };
    let levels: [i16; 13] = [6, 6, 6, 6, -3, -3, -3, -3, 7, -3, -3, -3, -3];
    let answers = [
        (0, 0, 0, 5),
        (1, 0, 0, 5),
        (2, 0, 0, 5),
        (0, 1, 0, 5),
        (1, 1, 94, 5),
        (2, 1, 0, 5),
        (0, 2, 0, 5),
        (1, 2, 0, 5),
        (2, 2, 0, 5),
    ];
    check_answers(settings, &levels, &answers)
}

// 5 columns and 3 rows at depth 1: 3 by 2 nodes above.
const WIDE: Settings = Settings {
    columns: 5,
    rows: 3,
    depth: 1,
    kernel: 5,
    black: 16,
    white: 235,
    bins: [3, 1, 0, 0, 0, 0, 0],
};

// Level 1 is 20, 40, 60 and 100, 120, 240; level 0 adds 6 in the first row, 12 in the second and -3 in the third.
const WIDE_LEVELS: [i16; 21] = [
    20, 40, 60, 100, 120, 240, 2, 2, 2, 2, 2, 4, 4, 4, 4, 4, -1, -1, -1, -1, -1,
];

// With k = 5 EXPAND copies at even places and takes the mean at odd ones. Read are 1 + 2 x 2, in the middle column 1 + 3 x 2.
pub(crate) fn wide() -> Tally<Finding> {
    let answers = [
        (0, 0, 26, 5),
        (1, 0, 36, 5),
        (2, 0, 46, 7),
        (3, 0, 56, 5),
        (4, 0, 66, 5),
        (0, 1, 72, 5),
        (1, 1, 82, 5),
        (2, 1, 92, 7),
        (3, 1, 127, 5),
        (4, 1, 162, 5),
        (0, 2, 97, 5),
        (1, 2, 107, 5),
        (2, 2, 117, 7),
        (3, 2, 177, 5),
        (4, 2, 235, 5),
    ];
    check_answers(WIDE, &WIDE_LEVELS, &answers)
}

// 3 columns and 2 rows at depth 0: each pixel is twice its own index, shown as 4 below 4 and as 9 above 9.
pub(crate) fn flat() -> Tally<Finding> {
    let settings = Settings {
        columns: 3,
        rows: 2,
        depth: 0,
        kernel: 6,
        black: 4,
        white: 9,
        bins: [2, 0, 0, 0, 0, 0, 0],
    };
    let answers = [
        (0, 0, 4, 1),
        (1, 0, 4, 1),
        (2, 0, 6, 1),
        (0, 1, 8, 1),
        (1, 1, 9, 1),
        (2, 1, 4, 1),
    ];
    check_answers(settings, &[1, 2, 3, 4, 2048, -2048], &answers)
}

// Squares with bins of 1.
fn square(side: u16, depth: u16) -> Settings {
    let mut bins: [u16; 7] = [0; 7];
    bins[..usize::from(depth.min(6)) + 1].fill(1);
    Settings {
        columns: side,
        rows: side,
        depth,
        kernel: 4,
        black: 0,
        white: 255,
        bins,
    }
}

// The side and the depth of a square whose top is 5 by 5, its nodes, a column and a row, and the number of indices read. At depth 1: nine nodes
// above an even column and row that are not at the edge, two columns or rows above an odd one, and above the first and the last. At depth 2: 6 is
// 2 to 4, then 0 to 3; 8 is 3 to 5, then 1 to 3; 16 is 7 to 8, then 3 to 4. At depth 3: 14 is 6 to 8, then 2 to 5, then 0 to 3; 32 is 15 to 16,
// 7 to 8 and 3 to 4.
const COUNTS: [(u16, u16, usize, u16, u16, u16); 16] = [
    (9, 1, 106, 4, 4, 10),
    (9, 1, 106, 2, 6, 10),
    (9, 1, 106, 3, 4, 7),
    (9, 1, 106, 4, 5, 7),
    (9, 1, 106, 3, 5, 5),
    (9, 1, 106, 0, 0, 5),
    (9, 1, 106, 8, 8, 5),
    (9, 1, 106, 0, 4, 7),
    (9, 1, 106, 4, 8, 7),
    (17, 2, 395, 6, 6, 26),
    (17, 2, 395, 8, 8, 19),
    (17, 2, 395, 6, 8, 22),
    (17, 2, 395, 16, 6, 15),
    (33, 3, 1484, 14, 14, 42),
    (33, 3, 1484, 32, 14, 23),
    (33, 3, 1484, 14, 0, 23),
];

pub(crate) fn counts() -> Tally<Finding> {
    let mut t = Tally::new();
    let mut levels: [i16; 1484] = [0; 1484];
    levels[..25].fill(77);
    for &(side, depth, nodes, column, row, read) in &COUNTS {
        let asked = Asked {
            settings: square(side, depth),
            column,
            row,
        };
        let expected = RebuiltPixel { pixel: 77, read };
        t.count(check(asked, &levels[..nodes.min(1484)], Ok(expected)));
    }
    t
}

// The windows of the pixel in the middle of 9 by 9 at depth 1: columns and rows 1 to 3 of level 1, whose 25 nodes come first, and the pixel.
const MIDDLE: [usize; 10] = [6, 7, 8, 11, 12, 13, 16, 17, 18, 65];

// The middle and a pixel beside it on each side.
fn middle(column: u16, row: u16) -> Asked {
    Asked {
        settings: square(9, 1),
        column,
        row,
    }
}

// The least and the greatest index in all other places; and one such index in each of these.
pub(crate) fn outside_windows() -> Tally<Finding> {
    let mut t = Tally::new();
    let expected = RebuiltPixel {
        pixel: 40,
        read: 10,
    };
    for unlawful in [-32768, 32767] {
        let mut levels: [i16; 106] = [unlawful; 106];
        for place in MIDDLE {
            levels[place.min(105)] = 40;
        }
        levels[65] = 0;
        t.count(check(middle(4, 4), &levels, Ok(expected)));
        for (column, row) in [(3, 4), (5, 4), (4, 3), (4, 5)] {
            t.count(check(middle(column, row), &levels, Err(Refusal::Index)));
        }
        for place in MIDDLE {
            let mut other = levels;
            other[place.min(105)] = unlawful;
            t.count(check(middle(4, 4), &other, Err(Refusal::Index)));
        }
    }
    t
}

// Column C, row R and both, the largest numbers, and a row that is a column.
const OUTSIDE: [(u16, u16); 8] = [
    (5, 0),
    (5, 2),
    (0, 3),
    (4, 3),
    (5, 3),
    (65535, 0),
    (0, 65535),
    (65535, 65535),
];

pub(crate) fn outside_picture() -> Tally<Finding> {
    let mut t = Tally::new();
    for (column, row) in OUTSIDE {
        let asked = Asked {
            settings: WIDE,
            column,
            row,
        };
        t.count(check(asked, &WIDE_LEVELS, Err(Refusal::Place)));
        t.count(check(asked, &[-32768; 21], Err(Refusal::Place)));
        t.count(check(asked, &WIDE_LEVELS[..20], Err(Refusal::LevelsLength)));
    }
    t
}

// Other lengths than 21, for a pixel and for none.
pub(crate) fn lengths() -> Tally<Finding> {
    let mut t = Tally::new();
    let asked = Asked {
        settings: WIDE,
        column: 4,
        row: 2,
    };
    let mut longer: [i16; 22] = [0; 22];
    longer[..21].copy_from_slice(&WIDE_LEVELS);
    for n in [0, 6, 15, 20, 22] {
        t.count(check(asked, &longer[..n], Err(Refusal::LevelsLength)));
    }
    let expected = RebuiltPixel {
        pixel: 235,
        read: 5,
    };
    t.count(check(asked, &longer[..21], Ok(expected)));
    t
}
