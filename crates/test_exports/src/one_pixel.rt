// One pixel without the whole picture (document 02, P6). A call that is refused leaves both lent numbers as they were.
// Kept: refusals are numbers, for the reason at `expected` in `lent`.
use crate::lent::{BEFORE, TALL, answered, expected, faulty, twice_faulty};
use crate::parts::settings_array;
use crate::pictures::{INDICES, NUMBERS, SHOWN};
use lepsarvu::pixels;
use pyramid::Settings;
use test_support::reporting::Checks;

// What the lent pixel and the lent number of indices read hold before a call.
const BOTH_BEFORE: (u8, u16) = (99, BEFORE);

// A pixel that is asked for.
// Kept: settings are the numbers that the exported function takes.
#[derive(Clone, Copy)]
struct Asked<'a> {
    settings: &'a [u16; 13],
    levels: &'a [i16],
    column: u16,
    row: u16,
}

// The pixel and the number of indices read that the call leaves, or its refusal.
fn check(t: &mut Checks, a: Asked, e: Result<(u8, u16), u16>) {
    let got = answered(BOTH_BEFORE, |left| {
        let (pixel, read) = left;
        pixels::lepsarvu_rebuild_pixel(a.settings, a.levels, a.column, a.row, pixel, read)
    });
    t.check(got == expected(BOTH_BEFORE, e));
}

// Indices read in a row of 3 columns and 5 rows, N = 1: the pixel's own, and two columns of two rows of level 1, in the middle row of three.
const READ: [u16; 5] = [5, 5, 7, 5, 5];

// Every pixel of the picture that `pictures` rebuilds, with every grey and with black 16 and white 235.
pub(crate) fn accepted() -> Checks {
    let mut t = Checks::new();
    for (black, white) in [(0, 255), (16, 235)] {
        let mut settings = NUMBERS;
        settings[4] = u16::from(black);
        settings[5] = u16::from(white);
        for row in 0..5u16 {
            for column in 0..3u16 {
                let asked = Asked {
                    settings: &settings,
                    levels: &INDICES,
                    column,
                    row,
                };
                let shown = SHOWN[3 * usize::from(row) + usize::from(column)];
                let read = READ[usize::from(row)];
                check(&mut t, asked, Ok((shown.max(black).min(white), read)));
            }
        }
    }
    t
}

// A column and a row of 5 and 9, how many indices are lent, whether they are lawful in the windows, and the answer: other lengths are 6, whatever the
// pixel is; outside is 21, whatever the indices are, with column and row exchanged too.
const CALLS: [(u16, u16, usize, bool, Result<(u8, u16), u16>); 12] = [
    (4, 6, 66, true, Ok((200, 13))),
    (4, 6, 65, true, Err(6)),
    (4, 6, 67, true, Err(6)),
    (4, 6, 0, true, Err(6)),
    (5, 9, 65, false, Err(6)),
    (5, 6, 66, true, Err(21)),
    (4, 9, 66, true, Err(21)),
    (6, 4, 66, true, Err(21)),
    (65535, 6, 66, true, Err(21)),
    (4, 65535, 66, true, Err(21)),
    (5, 9, 66, false, Err(21)),
    (4, 6, 66, false, Err(11)),
];

// The top is 200 everywhere, at bin 2. The first node of level 1, which the pixel in column 4 and row 6 does not read, is lawful at no bin; nor
// is, where it is to be so, the last of level 2, which it reads.
fn levels(lawful: bool) -> [i16; 67] {
    let mut levels: [i16; 67] = [0; 67];
    levels[..6].fill(100);
    levels[6] = -32768;
    if !lawful {
        levels[5] = 32767;
    }
    levels
}

// Settings with each fault, in a call with no other, and with all that is looked for later.
fn check_faults(t: &mut Checks, faults: &[(Settings, u16)]) {
    for &(s, refusal) in faults {
        let settings = settings_array(s);
        for (column, row, n, lawful) in [(4, 6, 66, true), (5, 9, 65, false)] {
            let asked = Asked {
                settings: &settings,
                levels: &levels(lawful)[..n],
                column,
                row,
            };
            check(t, asked, Err(refusal));
        }
    }
}

pub(crate) fn refused() -> Checks {
    let mut t = Checks::new();
    check_faults(&mut t, &faulty(TALL));
    check_faults(&mut t, &twice_faulty(TALL));
    let settings = settings_array(TALL);
    for (column, row, n, lawful, e) in CALLS {
        let asked = Asked {
            settings: &settings,
            levels: &levels(lawful)[..n.min(67)],
            column,
            row,
        };
        check(&mut t, asked, e);
    }
    t
}
