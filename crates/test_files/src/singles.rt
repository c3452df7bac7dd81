// Single readings that a caller may hand to the writer, before the drier and at the press.
ghost use Rattle.std.specs.Prelude.{◌≡◌, length};

use crate::parts::Finding;
use crate::writers::Written;
use crate::{piece_a, writers};
use bale::{Code, Note, Reading};
use refusals::Refusal;
use test_support::reporting::Tally;

// A reading; and its kind and number in the file, or the refusal.
#[derive(Clone, Copy)]
pub(crate) struct Trial {
    pub reading: Reading,
    pub code: Result<Code, Refusal>,
}

// Kept: a kind is the byte that stands in the file, and is expected as such.
fn lawful(reading: Reading, kind: u8, number: u32) -> Trial {
    Trial {
        reading,
        code: Ok(Code { kind, number }),
    }
}

fn unlawful(reading: Reading) -> Trial {
    Trial {
        reading,
        code: Err(Refusal::Reading),
    }
}

// 100, the floats next to it, both zeros, both ends of the subnormals, the largest float, negatives, both infinities, a NaN; then
// the other kinds.
pub(crate) fn trials() -> [Trial; 19] {
    [
        lawful(Reading::Percentage(100.0), 1, 0x42C8_0000),
        lawful(Reading::Percentage(99.99999), 1, 0x42C7_FFFF),
        unlawful(Reading::Percentage(100.00001)),
        lawful(Reading::Percentage(0.0), 1, 0),
        unlawful(Reading::Percentage(-0.0)),
        lawful(Reading::Percentage(1.0e-45), 1, 1),
        lawful(Reading::Percentage(1.1754942e-38), 1, 0x007F_FFFF),
        unlawful(Reading::Percentage(3.4028235e38)),
        unlawful(Reading::Percentage(-6.5)),
        unlawful(Reading::Percentage(-1.0e-40)),
        unlawful(Reading::Percentage(1.0 / 0.0)),
        unlawful(Reading::Percentage(-1.0 / 0.0)),
        unlawful(Reading::Percentage(0.0 / 0.0)),
        lawful(Reading::NotFitted, 0, 0),
        lawful(Reading::Fault(1), 2, 1),
        lawful(Reading::Fault(255), 2, 255),
        unlawful(Reading::Fault(0)),
        unlawful(Reading::Fault(256)),
        unlawful(Reading::Fault(4294967295)),
    ]
}

// Which of piece A's two readings another one stands for.
#[derive(Clone, Copy)]
enum Probe {
    BeforeDrier,
    AtPress,
}

impl Probe {
    // Piece A's note with a reading of this probe.
    fn note(self, reading: Reading) -> Note {
        match self {
            Probe::BeforeDrier => piece_a::note(reading, piece_a::at_press()),
            Probe::AtPress => piece_a::note(piece_a::before_drier(), reading),
        }
    }

    // Piece A's file with the code of a reading of this probe.
    fn file(self, code: Code) -> [u8; 58]
        ensures { 58 ≡ length result }
    {
        let at = match self {
            Probe::BeforeDrier => 18,
            Probe::AtPress => 23,
        };
        let mut file = piece_a::file();
        file[at] = code.kind;
        file[at + 1..at + 5].copy_from_slice(&code.number.to_le_bytes());
        file
    }
}

fn check_trial(x: Trial, probe: Probe) -> Option<Finding> {
    let mut out: [u8; 64] = [0; 64];
    let written = Written {
        settings: piece_a::SETTINGS,
        note: probe.note(x.reading),
        levels: &piece_a::LEVELS[..13],
    };
    match x.code {
        Ok(code) => writers::check_writing(Ok(&probe.file(code)), written, &mut out),
        Err(refusal) => writers::check_writing(Err(refusal), written, &mut out),
    }
}

pub(crate) fn check_all() -> Tally<Finding> {
    let mut tally = Tally::new();
    for x in trials() {
        for probe in [Probe::BeforeDrier, Probe::AtPress] {
            tally.count(check_trial(x, probe));
        }
    }
    tally
}
