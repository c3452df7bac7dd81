// Every set of faults, each fault in four variants: the first of the set is the refusal.
use crate::base::BASE;
use crate::buffers::{Dot, Node, Put};
use crate::calling;
use crate::calling::Case;
use refusals::Refusal;
use test_support::faults::{Faults, check_sets};
use test_support::reporting::Checks;
use test_support::rooms::Lengths;

// The faults in their order: coding and rebuilding look for the same ten, and then each for one of its own.
fn faults_to(last: Refusal) -> [Refusal; 11] {
    [
        Refusal::Size,
        Refusal::Depth,
        Refusal::Columns,
        Refusal::Rows,
        Refusal::Kernel,
        Refusal::BlackWhite,
        Refusal::Bin,
        Refusal::PictureLength,
        Refusal::LevelsLength,
        Refusal::WorkLength,
        last,
    ]
}

// An index that is within 4,096: at bin 3 it is -4,095, which with 200 is -3,895, shown as black.
const LAWFUL: Put = Put {
    place: 65,
    index: -1365,
    node: Some(Node {
        value: -3895,
        pixel: 16,
    }),
};

// That index, or with its fault one whose product with its bin is beyond 4,096: at the first node of level 2, the last of level 0, the
// first of level 1, the last of level 2.
fn put(faults: Faults) -> Put {
    let unlawful = [
        Put::unlawful(0, 4097),
        Put::unlawful(65, 1366),
        Put::unlawful(6, -2049),
        Put::unlawful(5, -4097),
    ];
    faults.choose(Refusal::Index, unlawful, [LAWFUL; 4])
}

// Pixels just outside black and white: below at the first place, above at the last, above in the middle, below at the last. No picture is shorter
// than 45 in the second and the fourth variant.
const OUTSIDE: [Dot; 4] = [
    Dot {
        place: 0,
        pixel: 15,
    },
    Dot {
        place: 44,
        pixel: 236,
    },
    Dot {
        place: 22,
        pixel: 236,
    },
    Dot {
        place: 44,
        pixel: 15,
    },
];

// One of these pixels with its fault; else none, for the filler lies between black and white.
fn dot(faults: Faults) -> Option<Dot> {
    faults.choose(Refusal::Pixel, OUTSIDE.map(|dot| Some(dot)), [None; 4])
}

// Buffers of the right lengths, the work buffer longer too; or with their faults too short and too long, the work buffer too short.
fn lengths(faults: Faults) -> Lengths {
    Lengths {
        picture: faults.choose(Refusal::PictureLength, [44, 46, 44, 46], [45; 4]),
        levels: faults.choose(Refusal::LevelsLength, [65, 65, 67, 67], [66; 4]),
        work: faults.choose(Refusal::WorkLength, [65, 65, 0, 0], [66, 70, 66, 70]),
    }
}

// A call with these faults, which is to answer the first of them.
fn case(faults: Faults) -> Case {
    Case {
        settings: faults.put_in(BASE),
        lengths: lengths(faults),
        put: Some(put(faults)),
        dot: dot(faults),
        answer: faults.answer(()),
    }
}

// All sets of the faults of a call, of which it looks for this one last, four checks a set. `gives` calls with what the case lends, and tells
// whether that gives what the case expects.
fn check_all<F: Fn(Case) -> bool>(last: Refusal, gives: F) -> Checks
    requires { F.IsAlwaysCallable gives }
{
    let table = faults_to(last);
    check_sets(&table, 2048, |faults| {
        (!gives(case(faults))).then_some(())
    })
}

// Kept: this and `rebuilding` name the call and its last fault; what both do is `check_all`.
pub(crate) fn coding() -> Checks {
    check_all(Refusal::Pixel, calling::coding_gives)
}

pub(crate) fn rebuilding() -> Checks {
    check_all(Refusal::Index, calling::rebuilding_gives)
}
