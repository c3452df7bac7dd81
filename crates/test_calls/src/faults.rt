// Settings with one fault each, at both ends of every range, in every function that takes settings.
use crate::base::BASE;
use crate::calling::Case;
use crate::{base, calling, shapes};
use pyramid::Settings;
use refusals::Refusal;
use std::array;
use test_support::reporting::Checks;
use test_support::rooms::Lengths;

// A setting: C, R, N, k, black, white, or the bin of a slot.
// Kept: each has a place and a rule of its own, so two matches of an enum, with no case forgotten, are plainer than closures for both.
#[derive(Clone, Copy)]
enum Setting {
    Columns,
    Rows,
    Depth,
    Kernel,
    Black,
    White,
    Bin(usize),
}

// The base settings with one set anew; with another depth every slot holds 1.
fn with_setting(setting: Setting, value: u16) -> Settings {
    let mut s = BASE;
    match setting {
        Setting::Columns => s.columns = value,
        Setting::Rows => s.rows = value,
        Setting::Depth => {
            s.depth = value;
            s.bins = [1; 7];
        }
        Setting::Kernel => s.kernel = value,
        Setting::Black => s.black = value,
        Setting::White => s.white = value,
        Setting::Bin(slot) => {
            if slot < 7 {
                s.bins[slot] = value;
            }
        }
    }
    s
}

// What both codings answer: a grey of 200 is refused where it does not lie between black and white. So are the pixels that a refused coding
// is lent, 16 to 60: they lie below a black of 234, and most above a white of 17.
fn coding_answer(s: Settings, answer: Result<(), Refusal>) -> Result<(), Refusal> {
    let grey = u16::from(calling::GREY);
    match answer {
        Ok(()) if grey < s.black || s.white < grey => Err(Refusal::Pixel),
        _ => answer,
    }
}

// The answer of all functions to settings whose bounds, or whose refusal, are given, with buffers of the lengths of the settings
// without the fault.
pub(crate) fn check(t: &mut Checks, s: Settings, bounds: Result<[u16; 7], Refusal>) {
    let answer = bounds.map(|_| ());
    let nodes = pyramid::total_nodes(s).map(usize::from);
    let case = Case {
        settings: s,
        lengths: Lengths {
            picture: base::PIXELS,
            levels: base::NODES,
            work: base::NODES,
        },
        put: None,
        dot: None,
        answer,
    };
    t.check(nodes == answer.map(|()| base::NODES));
    t.check(pyramid::level_bounds(s) == bounds);
    let halves: [u16; 7] = array::from_fn(|slot| s.bins[slot] / 2);
    t.check(pyramid::closed_loop_bounds(s) == answer.map(|()| halves));
    t.check(calling::coding_gives(Case {
        answer: coding_answer(s, answer),
        ..case
    }));
    t.check(calling::rebuilding_gives(case));
    shapes::check(t, s, answer);
}

// The refusal of another C or R than 9 and 5: no other that is tried is a multiple of 4 and 1 more.
fn refusal_of_side(value: u16, undivided: Refusal) -> Refusal {
    if 2 <= value && value <= 129 {
        undivided
    } else {
        Refusal::Size
    }
}

// The refusal of another N than 2: of C - 1, 8, and R - 1, 4, it is R - 1 that 2 to the third does not divide.
fn refusal_of_depth(value: u16) -> Refusal {
    if 6 < value {
        Refusal::Depth
    } else if 3 < value {
        Refusal::Columns
    } else {
        Refusal::Rows
    }
}

// Whether a bin is lawful: in a slot up to N = 2 it is to be 1 to 255, and above 0.
fn is_bin(slot: usize, value: u16) -> bool {
    if slot <= 2 {
        1 <= value && value <= 255
    } else {
        value == 0
    }
}

// The bounds of the bins 3, 2 and 1.
const BOUNDS: [u16; 7] = [2, 1, 0, 0, 0, 0, 0];

// The bounds with a bin of 1 or 255 in a slot: half of it, rounded down, and the bounds of the levels below rise with it.
fn bounds_with(slot: usize, bin: u16) -> [u16; 7] {
    match (slot, bin) {
        (_, 0) => BOUNDS,
        (0, 1) => [1, 1, 0, 0, 0, 0, 0],
        (1, 1) => [1, 0, 0, 0, 0, 0, 0],
        (_, 1) => [2, 1, 0, 0, 0, 0, 0],
        (0, _) => [128, 1, 0, 0, 0, 0, 0],
        (1, _) => [128, 127, 0, 0, 0, 0, 0],
        _ => [129, 128, 127, 0, 0, 0, 0],
    }
}

// The bounds with a setting in place of the lawful one: 9 by 5, N = 2, black 16 and white 235. No other C, R or N that is tried is lawful. For
// k = 6, whose multiplier is 1.96, rounded up, the bounds are 3, 1 and 0. Black and white change no bound.
fn bounds_to(setting: Setting, value: u16) -> Result<[u16; 7], Refusal> {
    match (setting, value) {
        (Setting::Columns, _) => Err(refusal_of_side(value, Refusal::Columns)),
        (Setting::Rows, _) => Err(refusal_of_side(value, Refusal::Rows)),
        (Setting::Depth, _) => Err(refusal_of_depth(value)),
        (Setting::Kernel, 3 | 4 | 5) => Ok(BOUNDS),
        (Setting::Kernel, 6) => Ok([3, 1, 0, 0, 0, 0, 0]),
        (Setting::Kernel, _) => Err(Refusal::Kernel),
        (Setting::Black, 0..=234) | (Setting::White, 17..=255) => Ok(BOUNDS),
        (Setting::Black | Setting::White, _) => Err(Refusal::BlackWhite),
        (Setting::Bin(slot), bin) if is_bin(slot, bin) => Ok(bounds_with(slot, bin)),
        (Setting::Bin(_), _) => Err(Refusal::Bin),
    }
}

// A setting with each of some values.
fn check_each(t: &mut Checks, setting: Setting, values: &[u16]) {
    for value in values {
        check(t, with_setting(setting, *value), bounds_to(setting, *value));
    }
}

pub(crate) fn all() -> Checks {
    let mut t = Checks::new();
    check_each(
        &mut t,
        Setting::Columns,
        &[0, 1, 130, 133, 257, 65535, 8, 10, 7, 11],
    );
    check_each(
        &mut t,
        Setting::Rows,
        &[0, 1, 130, 133, 257, 65535, 4, 6, 7, 3],
    );
    check_each(&mut t, Setting::Depth, &[3, 4, 6, 7, 8, 16, 32, 65535]);
    check_each(&mut t, Setting::Kernel, &[0, 1, 2, 3, 4, 5, 6, 7, 8, 65535]);
    check_each(&mut t, Setting::Black, &[0, 234, 235, 254, 255, 256, 65535]);
    check_each(&mut t, Setting::White, &[0, 1, 16, 17, 255, 256, 65535]);
    for slot in 0..7 {
        check_each(&mut t, Setting::Bin(slot), &[0, 1, 255, 256, 65535]);
    }
    t
}
