// Every set of the faults that the writer looks for, each fault in four variants: the first of the set is the answer.
use crate::parts::Finding;
use crate::writers::Written;
use crate::{piece_a, writers};
use bale::{Note, Reading};
use pyramid::Settings;
use refusals::Refusal;
use test_support::faults::{Faults, Variant, check_sets};
use test_support::reporting::Tally;

// The faults in their order: seven of the settings, then the writer's own.
const FAULTS: [Refusal; 11] = [
    Refusal::Size,
    Refusal::Depth,
    Refusal::Columns,
    Refusal::Rows,
    Refusal::Kernel,
    Refusal::BlackWhite,
    Refusal::Bin,
    Refusal::Reading,
    Refusal::LevelsLength,
    Refusal::FileLength,
    Refusal::Index,
];

// Piece A's note, or with its fault a percentage above 100 or below 0, or a fault code of 0 or above 255.
fn note(fault: Option<Variant>) -> Note {
    let (before_drier, at_press) = (piece_a::before_drier(), piece_a::at_press());
    match fault {
        Some(Variant::First) => piece_a::note(Reading::Percentage(100.5), at_press),
        Some(Variant::Second) => piece_a::note(before_drier, Reading::Fault(0)),
        Some(Variant::Third) => piece_a::note(Reading::Percentage(-6.5), at_press),
        Some(Variant::Fourth) => piece_a::note(before_drier, Reading::Fault(256)),
        None => piece_a::note(before_drier, at_press),
    }
}

// With its fault an index times its bin beyond 4,096: at the first node of level 1, near the end of level 0, at the first of level 0, the last of level 1.
fn lent_levels(fault: Option<Variant>) -> [i16; 14] {
    let mut levels = piece_a::LEVELS;
    match fault {
        Some(Variant::First) => levels[0] = 1025,
        Some(Variant::Second) => levels[11] = 410,
        Some(Variant::Third) => levels[4] = -410,
        Some(Variant::Fourth) => levels[3] = -1025,
        None => {}
    }
    levels
}

// The size of a file of settings with those of the faults that are the settings'.
fn check_size(faults: Faults, s: Settings) -> Option<Finding> {
    writers::check_size(s, faults.among_first(7).answer(58))
}

// Lends the first places of the levels, or with their fault one fewer or more; and the first bytes of a buffer, as many as the file
// has or more, or with their fault fewer.
fn check_set(faults: Faults) -> Option<Finding> {
    let levels = lent_levels(faults.variant_of(Refusal::Index));
    let places = faults
        .choose(Refusal::LevelsLength, [12, 12, 14, 14], [piece_a::NODES; 4])
        .min(14);
    let mut out: [u8; 64] = [0; 64];
    let room = faults
        .choose(Refusal::FileLength, [57, 57, 0, 0], [58, 64, 58, 64])
        .min(64);
    let written = Written {
        settings: faults.put_in(piece_a::SETTINGS),
        note: note(faults.variant_of(Refusal::Reading)),
        levels: &levels[..places],
    };
    let file = piece_a::file();
    let e = faults.answer(file.as_slice());
    let found = writers::check_writing(e, written, &mut out[..room]);
    check_size(faults, written.settings).or(found)
}

// The 2,048 sets.
// Kept beside that of test_pgm: the table, the calls and what is lent differ, and `check_sets` is what they share.
pub(crate) fn check_all() -> Tally<Finding> {
    check_sets(&FAULTS, 2048, |faults| check_set(faults))
}
