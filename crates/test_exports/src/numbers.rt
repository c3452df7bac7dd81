// The calls that hand out numbers of a size or of settings. What they hand out is worked out by hand from documents 01 and 02.
// Kept: refusals are numbers, for the reason at `expected` in `lent`.
use crate::lent::{
    BEFORE, BOUNDS_BEFORE, TALL, WIDE, answered, expected, faulty, twice_faulty, with_black_white,
};
use crate::parts::settings_array;
use lepsarvu::closed;
use pyramid::Settings;
use test_support::reporting::Checks;

// Columns and rows; the number that the call leaves, which is the fewer of the trailing zero bits of C - 1 and R - 1, or the refusal.
const DEPTHS: [(u16, u16, Result<u16, u16>); 7] = [
    (5, 9, Ok(2)),
    (9, 5, Ok(2)),
    (129, 65, Ok(6)),
    (97, 129, Ok(5)),
    (2, 129, Ok(0)),
    (1, 9, Err(1)),
    (5, 130, Err(1)),
];

pub(crate) fn depths() -> Checks {
    let mut t = Checks::new();
    for (columns, rows, e) in DEPTHS {
        let got = answered(BEFORE, |depth| {
            lepsarvu::lepsarvu_deepest_depth(columns, rows, depth)
        });
        t.check(got == expected(BEFORE, e));
    }
    t
}

// The number that the call leaves, or the refusal.
// Kept: this, `check_size` and the two of bounds are one call each, to which each hands the same settings; what they share
// is `answered` and `expected`, and what is expected has a type of its own in each.
fn check_nodes(t: &mut Checks, s: Settings, e: Result<u16, u16>) {
    let settings = settings_array(s);
    let got = answered(BEFORE, |nodes| {
        lepsarvu::lepsarvu_total_nodes(&settings, nodes)
    });
    t.check(got == expected(BEFORE, e));
}

fn check_size(t: &mut Checks, s: Settings, e: Result<usize, u16>) {
    let settings = settings_array(s);
    let before = usize::from(BEFORE);
    let got = answered(before, |size| {
        lepsarvu::lepsarvu_file_size(&settings, size)
    });
    t.check(got == expected(before, e));
}

fn check_bounds(t: &mut Checks, s: Settings, e: Result<[u16; 7], u16>) {
    let settings = settings_array(s);
    let got = answered(BOUNDS_BEFORE, |bounds| {
        lepsarvu::lepsarvu_level_bounds(&settings, bounds)
    });
    t.check(got == expected(BOUNDS_BEFORE, e));
}

fn check_closed_bounds(t: &mut Checks, s: Settings, e: Result<[u16; 7], u16>) {
    let settings = settings_array(s);
    let got = answered(BOUNDS_BEFORE, |bounds| {
        closed::lepsarvu_closed_loop_bounds(&settings, bounds)
    });
    t.check(got == expected(BOUNDS_BEFORE, e));
}

// 129 columns, 129 rows, N = 6, k = 4: 22,359 nodes.
const LARGEST: Settings = Settings { rows: 129, ..WIDE };

// T and the bytes of a file: 24 + 4(N + 1) + 2T, and 4 more for a black and a white that are not 0 and 255.
pub(crate) fn sizes() -> Checks {
    let mut t = Checks::new();
    check_nodes(&mut t, TALL, Ok(66));
    check_nodes(&mut t, WIDE, Ok(11310));
    check_nodes(&mut t, LARGEST, Ok(22359));
    check_size(&mut t, TALL, Ok(172));
    check_size(&mut t, with_black_white(TALL, 0, 235), Ok(172));
    check_size(&mut t, with_black_white(TALL, 16, 255), Ok(172));
    check_size(&mut t, with_black_white(TALL, 0, 255), Ok(168));
    check_size(&mut t, WIDE, Ok(22672));
    check_size(&mut t, LARGEST, Ok(44770));
    check_size(&mut t, with_black_white(LARGEST, 254, 255), Ok(44774));
    t
}

fn with_kernel_6(s: Settings) -> Settings {
    Settings { kernel: 6, ..s }
}

// Half a bin, rounded down; below the top more, by the bound above it, 1.96 times as much for k = 6 and rounded up.
pub(crate) fn level_bounds() -> Checks {
    let mut t = Checks::new();
    check_bounds(&mut t, TALL, Ok([6, 3, 1, 0, 0, 0, 0]));
    check_bounds(&mut t, with_kernel_6(TALL), Ok([11, 4, 1, 0, 0, 0, 0]));
    check_bounds(&mut t, WIDE, Ok([47, 32, 24, 20, 9, 6, 5]));
    check_bounds(
        &mut t,
        with_kernel_6(WIDE),
        Ok([502, 248, 122, 60, 25, 11, 5]),
    );
    t
}

// Closed-loop half a bin, rounded down, whatever the kernel.
pub(crate) fn closed_loop_bounds() -> Checks {
    let mut t = Checks::new();
    for s in [TALL, with_kernel_6(TALL)] {
        check_closed_bounds(&mut t, s, Ok([3, 2, 1, 0, 0, 0, 0]));
    }
    for s in [WIDE, with_kernel_6(WIDE)] {
        check_closed_bounds(&mut t, s, Ok([15, 8, 4, 11, 3, 1, 5]));
    }
    t
}

// All four leave the lent numbers as they were.
fn check_refused(t: &mut Checks, faults: &[(Settings, u16)]) {
    for &(s, refusal) in faults {
        check_nodes(t, s, Err(refusal));
        check_size(t, s, Err(refusal));
        check_bounds(t, s, Err(refusal));
        check_closed_bounds(t, s, Err(refusal));
    }
}

// Settings with each fault in turn, and with 19 and each other.
pub(crate) fn refusals() -> Checks {
    let mut t = Checks::new();
    for lawful in [TALL, WIDE] {
        check_refused(&mut t, &faulty(lawful));
        check_refused(&mut t, &twice_faulty(lawful));
    }
    t
}
