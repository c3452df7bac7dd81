// Numbers read in decimal: their values and how many digits they have are worked by hand.
use test_support::reporting::Checks;

// A text, a place of it and how many digits are read at most; the value and how many digits it has, where there is a number.
type Text = (&'static [u8], usize, usize, Option<(u32, usize)>);

// Kept: a row states a value and a count of digits as a pair. With `==` of `decimals::Number` this `map` would make such a number of the
// row instead of a pair of the answer.
fn check_each(t: &mut Checks, texts: &[Text]) {
    for (text, at, most, number) in texts {
        let got = decimals::number_at(text, *at, *most);
        t.check(got.map(|n| (n.value, n.digits)) == *number);
    }
}

// Texts of no digit to five, with no limit, or one of 5 that is not met.
const SHORT: [Text; 10] = [
    (b"", 0, 100, None),
    (b"7", 0, 100, Some((7, 1))),
    (b"42", 0, 100, Some((42, 2))),
    (b"907", 0, 100, Some((907, 3))),
    (b"1234", 0, 100, Some((1234, 4))),
    (b"65535", 0, 100, Some((65535, 5))),
    (b"", 0, 5, None),
    (b"7", 0, 5, Some((7, 1))),
    (b"1234", 0, 5, Some((1234, 4))),
    (b"65535", 0, 5, Some((65535, 5))),
];

// Texts of six digits to ten: never more than nine are read.
const LONG: [Text; 11] = [
    (b"123456", 0, 100, Some((123456, 6))),
    (b"7654321", 0, 100, Some((7654321, 7))),
    (b"12345678", 0, 100, Some((12345678, 8))),
    (b"987654321", 0, 100, Some((987654321, 9))),
    (b"4294967295", 0, 100, Some((429496729, 9))),
    (b"9999999999", 0, 100, Some((999999999, 9))),
    (b"12345678", 0, 9, Some((12345678, 8))),
    (b"987654321", 0, 9, Some((987654321, 9))),
    (b"4294967295", 0, 9, Some((429496729, 9))),
    (b"9999999999", 0, usize::MAX, Some((999999999, 9))),
    (b"4294967295", 0, 8, Some((42949672, 8))),
];

// A limit that is met.
const LIMITED: [Text; 7] = [
    (b"", 0, 0, None),
    (b"7", 0, 0, None),
    (b"4294967295", 0, 0, None),
    (b"4294967295", 0, 1, Some((4, 1))),
    (b"655360", 0, 5, Some((65536, 5))),
    (b"4294967295", 0, 5, Some((42949, 5))),
    (b"99999 1", 0, 5, Some((99999, 5))),
];

// Zeros in front are digits.
const ZEROS: [Text; 7] = [
    (b"0", 0, 5, Some((0, 1))),
    (b"00", 0, 100, Some((0, 2))),
    (b"007", 0, 5, Some((7, 3))),
    (b"00255", 0, 5, Some((255, 5))),
    (b"000255", 0, 5, Some((25, 5))),
    (b"0000000001", 0, 100, Some((0, 9))),
    (b"0000000012", 0, 9, Some((1, 9))),
];

pub(crate) fn lengths() -> Checks {
    let mut t = Checks::new();
    check_each(&mut t, &SHORT);
    check_each(&mut t, &LONG);
    check_each(&mut t, &LIMITED);
    check_each(&mut t, &ZEROS);
    t
}

// Places inside a text, at its end, past it and as far as can be.
const INSIDE: [Text; 11] = [
    (b"12 345", 0, 9, Some((12, 2))),
    (b"12 345", 1, 9, Some((2, 1))),
    (b"12 345", 2, 9, None),
    (b"12 345", 3, 9, Some((345, 3))),
    (b"12 345", 3, 2, Some((34, 2))),
    (b"12 345", 5, 9, Some((5, 1))),
    (b"12 345", 6, 9, None),
    (b"12 345", 7, 9, None),
    (b"12 345", usize::MAX, 9, None),
    (b"12 345", usize::MAX, usize::MAX, None),
    (b"", usize::MAX, 9, None),
];

// Bytes beside the digits, white space, signs and letters end a number or begin none.
const ENDED: [Text; 12] = [
    (b"0/1", 0, 9, Some((0, 1))),
    (b"9:1", 0, 9, Some((9, 1))),
    (b"/1", 0, 9, None),
    (b":1", 0, 9, None),
    (b"\x001", 0, 9, None),
    (b"\xFF1", 0, 9, None),
    (b" 1", 0, 9, None),
    (b"-1", 0, 9, None),
    (b"+1", 0, 9, None),
    (b"31\n1", 0, 9, Some((31, 2))),
    (b"31#1", 0, 9, Some((31, 2))),
    (b"31e1", 0, 9, Some((31, 2))),
];

pub(crate) fn places() -> Checks {
    let mut t = Checks::new();
    check_each(&mut t, &INSIDE);
    check_each(&mut t, &ENDED);
    t
}
