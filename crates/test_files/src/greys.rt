// Piece A with other blacks and whites, written and read: the shape section has two numbers more where they are not 0 and 255 (document 02, P5).
ghost use Rattle.std.specs.Prelude.{◌≡◌, length};

use crate::answers::Held;
use crate::parts::Finding;
use crate::readers::Case;
use crate::writers::Written;
use crate::{cases, piece_a, writers};
use bale::Code;
use pyramid::Settings;
use refusals::Refusal;
use test_support::decoding::Form;
use test_support::reporting::Tally;

// Its indices, two bytes each: level 1 and level 0.
fn indices() -> [u8; 26] {
    *b"\x06\x00\x06\x00\x06\x00\x06\x00\xFD\xFF\xFD\xFF\xFD\xFF\xFD\xFF\x07\x00\xFD\xFF\xFD\xFF\xFD\xFF\xFD\xFF"
}

// The file with black 16 and white 235, section after section: the shape with six numbers, the bins, the readings, level 1 and level 0.
fn camera_file() -> [u8; 62]
    ensures { 62 ≡ length result }
{
    *b"\x06\x00\x03\x00\x03\x00\x01\x00\x04\x00\x10\x00\xEB\x00\x02\x00\x04\x00\x0A\x00\x02\x00\x01\x00\x00\xD0\x40\x00\x00\x00\x00\x00\x04\x00\x06\x00\x06\x00\x06\x00\x06\x00\x09\x00\xFD\xFF\xFD\xFF\xFD\xFF\xFD\xFF\x07\x00\xFD\xFF\xFD\xFF\xFD\xFF\xFD\xFF"
}

// The same with another black and white, after k.
fn file_with(black: u8, white: u8) -> [u8; 62] {
    let mut file = camera_file();
    file[10] = black;
    file[12] = white;
    file
}

// The file is written so, into buffers of its length, longer and shorter, and is read to hold what was written.
fn check_pair(black: u8, white: u8, file: &[u8]) -> Option<Finding> {
    let settings = Settings {
        black: u16::from(black),
        white: u16::from(white),
        ..piece_a::SETTINGS
    };
    let written = Written {
        settings,
        note: piece_a::note(piece_a::before_drier(), piece_a::at_press()),
        levels: &piece_a::LEVELS[..13],
    };
    let indices = indices();
    let held = Held {
        form: Form::Greys,
        settings,
        before_drier: Code {
            kind: 1,
            number: 0x40D0_0000,
        },
        at_press: Code { kind: 0, number: 0 },
        indices: &indices,
    };
    writers::check_rooms(file, written).or(cases::check_file(Case {
        expected: Ok(held),
        file,
        nodes: Some(13),
    }))
}

// Six numbers that say black 0 and white 255.
fn check_full() -> Option<Finding> {
    cases::check_file(Case {
        expected: Err(Refusal::Count),
        file: &file_with(0, 255),
        nodes: None,
    })
}

// The greys of the trade's cameras, and pairs that differ from 0 and 255 at one end alone, or are one grey apart.
const PAIRS: [(u8, u8); 5] = [(16, 235), (0, 254), (1, 255), (254, 255), (0, 1)];

// With 0 and 255 the file is piece A's, of 58 bytes.
pub(crate) fn check_all() -> Tally<Finding> {
    let mut tally = Tally::new();
    tally.count(check_pair(0, 255, &piece_a::file()));
    tally.count(check_full());
    for (black, white) in PAIRS {
        tally.count(check_pair(black, white, &file_with(black, white)));
    }
    tally
}
