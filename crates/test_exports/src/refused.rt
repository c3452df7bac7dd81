// Both codings and rebuilding that are refused, with what they leave: all as it was.
// Kept: refusals are numbers, for the reason at `expected` in `lent`.
use crate::lent::{faulty, twice_faulty};
use crate::parts::settings_array;
use lepsarvu::closed;
use pyramid::Settings;
use std::array;
use test_support::fillers::{byte_filler, lawful_index, unlawful_index, work_filler};
use test_support::reporting::Checks;
use test_support::rooms::Lengths;

// 3 columns and 5 rows, N = 1, k = 6, black 16, white 235, bins 7 and 2.
const SETTINGS: Settings = Settings {
    columns: 3,
    rows: 5,
    depth: 1,
    kernel: 6,
    black: 16,
    white: 235,
    bins: [7, 2, 0, 0, 0, 0, 0],
};

const PIXELS: usize = 15;

const NODES: usize = 21;

// Lengths of buffers that no call refuses.
const ENOUGH: Lengths = Lengths {
    picture: PIXELS,
    levels: NODES,
    work: NODES + 1,
};

// What is refused: settings, how many places of each buffer are lent, and the refusal.
#[derive(Clone, Copy)]
struct Refused {
    settings: Settings,
    lengths: Lengths,
    refusal: u16,
}

// The buffers that are lent.
#[derive(Clone, Copy)]
struct Buffers {
    picture: [u8; 16],
    levels: [i16; 24],
    work: [i32; 24],
}

// A call that is lent the first places of the buffers: its answer, the picture and the levels after it, and the work buffer.
fn check<F: FnOnce(&mut [u8], &mut [i16], &mut [i32]) -> u16>(
    t: &mut Checks,
    r: Refused,
    before: Buffers,
    call: F,
)
    requires { F.IsAlwaysCallable call }
{
    let mut picture = before.picture;
    let mut levels = before.levels;
    let mut work = before.work;
    let p = r.lengths.picture.min(16);
    let l = r.lengths.levels.min(24);
    let w = r.lengths.work.min(24);
    let answer = call(&mut picture[..p], &mut levels[..l], &mut work[..w]);
    t.check(answer == r.refusal);
    t.check(picture == before.picture && levels == before.levels);
    t.check(work == before.work);
}

// Both codings of a picture.
fn check_codings(t: &mut Checks, r: Refused, picture: [u8; 16]) {
    let settings = settings_array(r.settings);
    let before = Buffers {
        picture,
        levels: array::from_fn(lawful_index),
        work: array::from_fn(work_filler),
    };
    check(t, r, before, |picture, levels, work| {
        lepsarvu::lepsarvu_coding(&settings, picture, levels, work)
    });
    check(t, r, before, |picture, levels, work| {
        closed::lepsarvu_closed_loop_coding(&settings, picture, levels, work)
    });
}

fn check_rebuilding(t: &mut Checks, r: Refused, levels: [i16; 24]) {
    let settings = settings_array(r.settings);
    let before = Buffers {
        picture: array::from_fn(byte_filler),
        levels,
        work: array::from_fn(work_filler),
    };
    check(t, r, before, |picture, levels, work| {
        lepsarvu::lepsarvu_rebuilding(&settings, levels, picture, work)
    });
}

// With pixels that are lawful, or with none that is, and with indices: their refusals, 20 and 11, come last.
fn check_all(t: &mut Checks, r: Refused) {
    check_codings(t, r, [200; 16]);
    check_codings(t, r, [3; 16]);
    check_rebuilding(t, r, array::from_fn(lawful_index));
    check_rebuilding(t, r, array::from_fn(unlawful_index));
}

fn check_faults(t: &mut Checks, faults: &[(Settings, u16)]) {
    for &(settings, refusal) in faults {
        let r = Refused {
            settings,
            lengths: ENOUGH,
            refusal,
        };
        check_all(t, r);
    }
}

// Other lengths of the picture, the levels and the work buffer, and the refusal of them.
const LENGTHS: [(usize, usize, usize, u16); 5] = [
    (PIXELS - 1, NODES, NODES + 1, 5),
    (PIXELS + 1, NODES, NODES + 1, 5),
    (PIXELS, NODES - 1, NODES + 1, 6),
    (PIXELS, NODES + 1, NODES + 1, 6),
    (PIXELS, NODES, NODES - 1, 7),
];

fn check_lengths(t: &mut Checks) {
    for (picture, levels, work, refusal) in LENGTHS {
        let r = Refused {
            settings: SETTINGS,
            lengths: Lengths {
                picture,
                levels,
                work,
            },
            refusal,
        };
        check_all(t, r);
    }
}

// Both codings of a picture that has a pixel below black or above white.
pub(crate) fn check_pixels(t: &mut Checks, picture: [u8; 16]) {
    let r = Refused {
        settings: SETTINGS,
        lengths: ENOUGH,
        refusal: 20,
    };
    check_codings(t, r, picture);
}

pub(crate) fn all() -> Checks {
    let mut t = Checks::new();
    check_faults(&mut t, &faulty(SETTINGS));
    check_faults(&mut t, &twice_faulty(SETTINGS));
    check_lengths(&mut t);
    check_pixels(&mut t, [3; 16]);
    let indices = Refused {
        settings: SETTINGS,
        lengths: ENOUGH,
        refusal: 11,
    };
    check_rebuilding(&mut t, indices, array::from_fn(unlawful_index));
    t
}
