// Kinds of readings as the exported writer takes them: numbers of 32 bits, of which 0, 1 and 2 alone are lawful.
use crate::files::{SMALL_LEVELS, SMALL_READINGS};
use crate::parts::{Readings, code};
use crate::writing::Contents;
use crate::{parts, writing};
use test_support::reporting::Checks;

// A kind above 2, and a number that is lawful with the kind 0, 1 or 2 that its low byte, or its low bytes, would be.
const KINDS: [(u32, u32); 16] = [
    (3, 0),
    (255, 9),
    (256, 0),
    (257, 0x42C8_0000),
    (258, 9),
    (65536, 0),
    (65537, 0x42C8_0000),
    (65538, 255),
    (0x0100_0000, 0),
    (0x0100_0001, 1),
    (0x0100_0002, 1),
    (0x8000_0000, 0),
    (0x8000_0001, 0x3F80_0000),
    (0x8000_0002, 2),
    (4294967294, 9),
    (4294967295, 9),
];

// A writing into a buffer of the file's size.
fn check(t: &mut Checks, readings: Readings) {
    let contents = Contents {
        settings: parts::small(7),
        readings,
        levels: &SMALL_LEVELS[..6],
    };
    t.check(writing::gives(contents, 40, Err(4)));
}

// Each before the drier, and at the press, beside a lawful reading.
pub(crate) fn refused() -> Checks {
    let mut t = Checks::new();
    let [drier, press] = SMALL_READINGS;
    for &(kind, number) in &KINDS {
        let tried = code(kind, number);
        check(&mut t, [tried, press]);
        check(&mut t, [drier, tried]);
    }
    t
}
