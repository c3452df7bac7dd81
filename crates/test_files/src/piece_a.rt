// Piece A of document 01, and the file that the writer is to make of it.
ghost use Rattle.std.specs.Prelude.{◌≡◌, length};

use bale::{Note, Reading};
use pyramid::Settings;

pub(crate) const NODES: usize = 13;

// 3 by 3, N = 1, k = 4, black 0 and white 255, bins 10 and 4.
pub(crate) const SETTINGS: Settings = Settings {
    columns: 3,
    rows: 3,
    depth: 1,
    kernel: 4,
    black: 0,
    white: 255,
    bins: [10, 4, 0, 0, 0, 0, 0],
};

// The indices, and a place more.
pub(crate) const LEVELS: [i16; 14] = [6, 6, 6, 6, -3, -3, -3, -3, 7, -3, -3, -3, -3, 0];

pub(crate) fn note(before_drier: Reading, at_press: Reading) -> Note {
    Note {
        before_drier,
        at_press,
    }
}

pub(crate) fn before_drier() -> Reading {
    Reading::Percentage(6.5)
}

pub(crate) fn at_press() -> Reading {
    Reading::NotFitted
}

// The file, section after section: the shape, the bins, the readings, level 1 and level 0.
pub(crate) fn file() -> [u8; 58]
    ensures { 58 ≡ length result }
{
    *b"\x04\x00\x03\x00\x03\x00\x01\x00\x04\x00\x02\x00\x04\x00\x0A\x00\x02\x00\x01\x00\x00\xD0\x40\x00\x00\x00\x00\x00\x04\x00\x06\x00\x06\x00\x06\x00\x06\x00\x09\x00\xFD\xFF\xFD\xFF\xFD\xFF\xFD\xFF\x07\x00\xFD\xFF\xFD\xFF\xFD\xFF\xFD\xFF"
}
