// Numbers written in decimal: their digits are written out by hand.
// Kept: `put_decimal` takes a buffer and a place, at and past its end too: that is what is tested here.
use test_support::comparing::first_difference;
use test_support::fillers::{byte_filler, fill, first_changed};
use test_support::reading::rest;
use test_support::reporting::Checks;

// A number and its digits.
const NUMBERS: [(u32, &[u8]); 11] = [
    (0, b"0"),
    (9, b"9"),
    (10, b"10"),
    (99, b"99"),
    (100, b"100"),
    (129, b"129"),
    (255, b"255"),
    (9999, b"9999"),
    (65535, b"65535"),
    (99999, b"99999"),
    (4294967295, b"4294967295"),
];

// Whether digits stand at a place, and every other byte is as it was; no digits where none are to be put.
fn is_left(digits: &[u8], buffer: &[u8], at: usize) -> bool {
    let before = at.min(buffer.len());
    let end = at.saturating_add(digits.len());
    first_changed(&buffer[..before], 0, byte_filler).is_none()
        && first_difference(rest(buffer, at), digits).is_none()
        && first_changed(buffer, end, byte_filler).is_none()
}

// A number in a filled buffer, at a place: its digits, or none where it has no room.
fn is_put(number: u32, digits: Option<&[u8]>, buffer: &mut [u8], at: usize) -> bool {
    fill(buffer, byte_filler);
    let got = decimals::put_decimal(number, buffer, at);
    got == digits.map(|digits| digits.len()) && is_left(digits.unwrap_or(&[]), buffer, at)
}

// In a buffer of so many bytes, at most 24.
fn check_put(t: &mut Checks, number: u32, digits: Option<&[u8]>, room: usize, at: usize) {
    let mut buffer: [u8; 24] = [0; 24];
    let n = room.min(24);
    t.check(is_put(number, digits, &mut buffer[..n], at));
}

// At the start, later, and at the last place that has room, in 24 bytes; and in as many bytes as there are digits.
fn check_room(t: &mut Checks, number: u32, digits: &[u8]) {
    let n = digits.len();
    for (room, at) in [(24, 0), (24, 5), (24, 24usize.saturating_sub(n)), (n, 0)] {
        check_put(t, number, Some(digits), room, at);
    }
}

// One place later, at the end, past it, and at the largest place; and in a byte fewer, a place later, and in no byte.
fn check_no_room(t: &mut Checks, number: u32, n: usize) {
    for (room, at) in [
        (24, 25usize.saturating_sub(n)),
        (24, 24),
        (24, 25),
        (24, usize::MAX),
        (n.saturating_sub(1), 0),
        (n, 1),
        (0, 0),
    ] {
        check_put(t, number, None, room, at);
    }
}

// The 11 numbers.
pub(crate) fn check_all() -> Checks {
    let mut t = Checks::new();
    for &(number, digits) in &NUMBERS {
        t.check(decimals::digit_count(number) == digits.len());
        check_room(&mut t, number, digits);
        check_no_room(&mut t, number, digits.len());
    }
    t
}
