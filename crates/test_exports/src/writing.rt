// The exported writer.
// Kept: refusals are numbers, for the reason at `expected` in `lent`.
use crate::lent::{BEFORE, answered, expected, holds};
use crate::parts::{Readings, note_array, settings_array};
use pyramid::Settings;
use std::array;
use test_support::fillers::byte_filler;

// What is written: settings, readings and levels.
#[derive(Clone, Copy)]
pub(crate) struct Contents<'a> {
    pub settings: Settings,
    pub readings: Readings,
    pub levels: &'a [i16],
}

// Whether a writing into so many bytes of a filled buffer gives the file and its size, with the bytes after it as they were; a refused
// one leaves all as it was.
pub(crate) fn gives(c: Contents, room: usize, e: Result<&[u8], u16>) -> bool {
    let settings = settings_array(c.settings);
    let note = note_array(c.readings);
    let before = usize::from(BEFORE);
    let mut out: [u8; 176] = array::from_fn(byte_filler);
    let lent = &mut out[..room.min(176)];
    let got = answered(before, |size| {
        lepsarvu::lepsarvu_write_file(&settings, &note, c.levels, lent, size)
    });
    let size = e.map(|file| file.len());
    got == expected(before, size) && holds(&out, e.unwrap_or(&[]))
}
