// Rows of numbers, each with one that is tried at each of its places: rounding, the bin rule and the test of indices. Document 01's pieces,
// halves on both sides of 0, the ends of the types, and numbers at and beside those that a row is made fast for.
use test_support::reporting::Checks;

const PLACES: usize = 9;

// A number at a place, and another at all others.
fn placed(number: i32, at: usize, others: i32) -> [i32; 9] {
    let mut row = [others; 9];
    if at < PLACES {
        row[at] = number;
    }
    row
}

// A sum, a divisor and the rounded quotient. Sums of REDUCE are divided by 400, those of EXPAND by 100.
const QUOTIENTS: [(i32, u16, i32); 29] = [
    (-1, 2, 0),
    (1, 2, 1),
    (-3, 2, -1),
    (-201, 400, -1),
    (-200, 400, 0),
    (199, 400, 0),
    (200, 400, 1),
    (-601, 400, -2),
    (-600, 400, -1),
    (2147483647, 400, 5368709),
    (-2147483648, 400, -5368709),
    (-51, 100, -1),
    (-50, 100, 0),
    (49, 100, 0),
    (50, 100, 1),
    (2147483647, 100, 21474836),
    (-2147483648, 100, -21474836),
    (2147483600, 400, 5368709),
    (2147483599, 100, 21474836),
    (2147483600, 200, 10737418),
    (-8, 10, -1),
    (7, 1, 7),
    (2147483647, 1, 2147483647),
    (-2147483648, 1, -2147483648),
    (2147483647, 65535, 32768),
    (-2147483648, 65535, -32769),
    (-32768, 65535, -1),
    (-2147483648, 0, 0),
    (2147483647, 0, 0),
];

// A value, a bin and the index. A row is made fast where all its values lie within 8,192 of 0 and the bin is below 256.
const INDICES: [(i32, u16, i32); 23] = [
    (1, 2, 0),
    (-1, 2, -1),
    (127, 255, 0),
    (128, 255, 1),
    (-127, 255, 0),
    (-128, 255, -1),
    (7, 1, 7),
    (4096, 3, 1365),
    (-8192, 1, -8192),
    (8192, 1, 8192),
    (8192, 255, 32),
    (-8192, 255, -32),
    (8193, 1, 8193),
    (-8193, 1, -8193),
    (-8193, 2, -4097),
    (128, 256, 0),
    (129, 256, 1),
    (-129, 256, -1),
    (2147483647, 1, 2147483647),
    (-2147483648, 1, -2147483648),
    (2147483647, 65535, 32768),
    (-2147483648, 65535, -32769),
    (-2147483648, 0, 0),
];

// What is tried of a row.
#[derive(Clone, Copy)]
enum Rule {
    Rounding,
    Bins,
}

impl Rule {
    fn run(self, row: &mut [i32], divisor: u16) {
        match self {
            Rule::Rounding => quantizer::round_row(row, divisor),
            Rule::Bins => quantizer::index_row(row, divisor),
        }
    }
}

// Each number at each place of a row, among sevens: seven times a divisor or a bin gives 7, and over 0 all is 0. What is not lent stays.
fn tried(rule: Rule, cases: &[(i32, u16, i32)]) -> Checks {
    let mut t = Checks::new();
    for &(number, divisor, answer) in cases {
        let others = 7 * i32::from(divisor);
        let sevens = if divisor == 0 { 0 } else { 7 };
        for at in 0..PLACES {
            let mut row = placed(number, at, others);
            rule.run(&mut row, divisor);
            t.check(row == placed(answer, at, sevens));
            let mut row = placed(number, at, 0);
            rule.run(&mut row[..at], divisor);
            t.check(row == placed(number, at, 0));
        }
    }
    t
}

pub(crate) fn rounded() -> Checks {
    tried(Rule::Rounding, &QUOTIENTS)
}

pub(crate) fn indices() -> Checks {
    tried(Rule::Bins, &INDICES)
}

// Two indices, a bin, a limit, and whether the values of both, and of 0, lie within it.
const LIMITS: [(i16, i16, u16, u16, bool); 12] = [
    (-16, 16, 255, 4096, true),
    (-17, 16, 255, 4096, false),
    (-16, 17, 255, 4096, false),
    (-4096, 4096, 1, 4096, true),
    (-4097, 0, 1, 4096, false),
    (0, 4097, 1, 4096, false),
    (-32768, 32767, 0, 4096, true),
    (-32768, 32767, 65535, 4096, false),
    (-1, 1, 65535, 65535, true),
    (-2, 1, 32768, 65535, false),
    (1, 1, 1, 0, false),
    (0, 0, 65535, 0, true),
];

pub(crate) fn limits() -> Checks {
    let mut t = Checks::new();
    for &(one, other, bin, limit, answer) in &LIMITS {
        for at in 0..PLACES {
            let mut row: [i16; 9] = [0; 9];
            let mut pairs: [[u8; 2]; 9] = [[0; 2]; 9];
            let later = (at + 4) % PLACES;
            row[at] = one;
            pairs[at] = one.to_le_bytes();
            row[later] = other;
            pairs[later] = other.to_le_bytes();
            t.check(quantizer::indices_within(&row, bin, limit) == answer);
            t.check(quantizer::pairs_within(&pairs, bin, limit) == answer);
            if limit == 4096 {
                t.check(pyramid::index_pairs_ok(&pairs, bin) == answer);
            }
        }
    }
    t.check(quantizer::indices_within(&[], 65535, 0));
    t.check(quantizer::pairs_within(&[], 65535, 0));
    t
}
