// Every set of the faults that the reader looks for, each fault in four variants: the first of the set is the answer.
use crate::answers::Picture;
use crate::parts::{Call, Finding};
use crate::readers;
use crate::readers::Case;
use pyramid::Dimensions;
use refusals::Refusal;
use test_support::faults::{Faults, Variant, check_sets};
use test_support::reporting::Tally;
use test_support::rooms::Room;

// The faults in their order. Only the last is not the file's.
const FAULTS: [Refusal; 5] = [
    Refusal::Header,
    Refusal::Size,
    Refusal::Greatest,
    Refusal::PixelCount,
    Refusal::PictureLength,
];

// Another letter and another figure for P5, a vertical tab for white space, and # for the white space before the pixels.
fn put_header(file: &mut [u8; 20], variant: Variant) {
    match variant {
        Variant::First => file[0] = b'p',
        Variant::Second => file[1] = b'6',
        Variant::Third => file[4] = 11,
        Variant::Fourth => file[10] = b'#',
    }
}

// 4 by 1 and 1 by 4, which are 4 pixels too.
fn put_size(file: &mut [u8; 20], variant: Variant) {
    let (columns, rows) = match variant {
        Variant::First | Variant::Third => (b'4', b'1'),
        Variant::Second | Variant::Fourth => (b'1', b'4'),
    };
    file[3] = columns;
    file[5] = rows;
}

// 254, 256, 055 and 155.
fn put_greatest(file: &mut [u8; 20], variant: Variant) {
    match variant {
        Variant::First => file[9] = b'4',
        Variant::Second => file[9] = b'6',
        Variant::Third => file[7] = b'0',
        Variant::Fourth => file[7] = b'1',
    }
}

// A file of 2 by 2, which ends after 15 bytes, and some bytes more.
fn file_with(faults: Faults) -> [u8; 20] {
    let mut file = *b"P5\n2 2\n255\n\xFA\xFB\xFC\xFD#0\n 9";
    if let Some(variant) = faults.variant_of(Refusal::Header) {
        put_header(&mut file, variant);
    }
    if let Some(variant) = faults.variant_of(Refusal::Size) {
        put_size(&mut file, variant);
    }
    if let Some(variant) = faults.variant_of(Refusal::Greatest) {
        put_greatest(&mut file, variant);
    }
    file
}

// What the file holds.
const PICTURE: Picture = Picture {
    size: Dimensions {
        columns: 2,
        rows: 2,
    },
    pixels: b"\xFA\xFB\xFC\xFD",
};

// The file, or with its fault a pixel fewer and one more, none, and 9; and of the picture its places, or with their fault one more and
// one fewer, none, and twice as many. The reader that is lent no picture gives the first of the file's own faults.
fn check_set(faults: Faults) -> Option<Finding> {
    let file = file_with(faults);
    let length = faults
        .choose(Refusal::PixelCount, [14, 16, 11, 20], [15; 4])
        .min(20);
    let places = faults.choose(Refusal::PictureLength, [5, 3, 0, 8], [4; 4]);
    let case = Case {
        expected: faults.answer(PICTURE),
        file: &file[..length],
    };
    let checked = readers::check_checking(Case {
        expected: faults.among_first(4).answer(PICTURE),
        ..case
    });
    checked.or(readers::check_places(Call::Reading(Room::Exact), case, places))
}

// The 32 sets.
// Kept beside that of test_files: the table, the calls and what is lent differ, and `check_sets` is what they share.
pub(crate) fn check_all() -> Tally<Finding> {
    check_sets(&FAULTS, 32, |faults| check_set(faults))
}
