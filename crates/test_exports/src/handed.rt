// What the readers hand out, in memory that is filled before with other numbers.
use crate::lent;
use crate::parts::{Readings, note_array, settings_array};
use pyramid::Settings;

// The memory that is lent for the settings and the readings.
// Kept: two arrays of numbers, as the C functions are lent them.
#[derive(Clone, Copy, PartialEq, Eq)]
pub(crate) struct Handed {
    pub settings: [u16; 13],
    pub note: [u32; 4],
}

// What it holds before a call.
const BEFORE: Handed = Handed {
    settings: [
        60021, 60022, 60023, 60024, 60025, 60026, 60027, 60028, 60029, 60030, 60031, 60032, 60033,
    ],
    note: [4000000001, 4000000002, 4000000003, 4000000004],
};

// What a reader is to answer and to hand out where it accepts a file of settings, or refuses it.
// Kept: refusals are numbers, for the reason at `expected` in `lent`.
pub(crate) fn expected(e: Result<Settings, u16>, r: Readings) -> (u16, Handed) {
    let handed = e.map(|s| Handed {
        settings: settings_array(s),
        note: note_array(r),
    });
    lent::expected(BEFORE, handed)
}

pub(crate) fn by_checking(file: &[u8]) -> (u16, Handed) {
    lent::answered(BEFORE, |to| {
        lepsarvu::lepsarvu_check_file(file, &mut to.settings, &mut to.note)
    })
}

pub(crate) fn by_reading(file: &[u8], levels: &mut [i16]) -> (u16, Handed) {
    lent::answered(BEFORE, |to| {
        lepsarvu::lepsarvu_read_file(file, levels, &mut to.settings, &mut to.note)
    })
}
