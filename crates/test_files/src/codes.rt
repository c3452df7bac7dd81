// Readings and their codes by themselves, both ways.
use crate::parts::{Call, Finding, Part};
use crate::singles::Trial;
use crate::{answers, singles};
use bale::Code;
use refusals::Refusal;
use test_support::answers::compare;
use test_support::reporting::{Tally, of_call};

fn compare_code(x: Trial) -> Option<Finding> {
    let got = bale::reading_code(x.reading);
    compare(Part::Refusal, got, x.code, |code, e| {
        (code != e).then_some(Finding::of_part(Part::Code, usize::from(code.kind)))
    })
}

// A code stands for a reading that holds it, or is refused.
fn compare_reading(code: Code, e: Result<(), Refusal>) -> Option<Finding> {
    let got = bale::coded_reading(code.kind, code.number);
    compare(Part::Refusal, got, e, |reading, ()| {
        (!answers::is_held(reading, code)).then_some(Finding::of_part(Part::ReadingHeld, 0))
    })
}

const LAWFUL: Result<(), Refusal> = Ok(());

const UNLAWFUL: Result<(), Refusal> = Err(Refusal::Reading);

// A kind and a number, and whether they stand for a reading or are refused: not fitted with a number; 100 percent, those next to it, 0, both ends
// of the subnormals, the largest, negatives, infinities and NaNs; fault codes of 1 to 255; other kinds.
const CODES: [(u8, u32, Result<(), Refusal>); 26] = [
    (0, 0, LAWFUL),
    (0, 1, UNLAWFUL),
    (0, 0x8000_0000, UNLAWFUL),
    (1, 0x42C8_0000, LAWFUL),
    (1, 0x42C7_FFFF, LAWFUL),
    (1, 0x42C8_0001, UNLAWFUL),
    (1, 0, LAWFUL),
    (1, 1, LAWFUL),
    (1, 0x007F_FFFF, LAWFUL),
    (1, 0x7F7F_FFFF, UNLAWFUL),
    (1, 0x8000_0000, UNLAWFUL),
    (1, 0xC0D0_0000, UNLAWFUL),
    (1, 0x7F80_0000, UNLAWFUL),
    (1, 0xFF80_0000, UNLAWFUL),
    (1, 0x7F80_0001, UNLAWFUL),
    (1, 0x7FC0_0000, UNLAWFUL),
    (1, 0xFFFF_FFFF, UNLAWFUL),
    (2, 1, LAWFUL),
    (2, 255, LAWFUL),
    (2, 0, UNLAWFUL),
    (2, 256, UNLAWFUL),
    (2, 0xFFFF_FFFF, UNLAWFUL),
    (3, 0, UNLAWFUL),
    (3, 1, UNLAWFUL),
    (128, 1, UNLAWFUL),
    (255, 9, UNLAWFUL),
];

// The readings, then the codes.
pub(crate) fn check_all() -> Tally<Finding> {
    let mut tally = Tally::new();
    for x in singles::trials() {
        tally.count(of_call(Call::Coding, compare_code(x)));
    }
    for (kind, number, e) in CODES {
        let found = compare_reading(Code { kind, number }, e);
        tally.count(of_call(Call::Decoding, found));
    }
    tally
}
