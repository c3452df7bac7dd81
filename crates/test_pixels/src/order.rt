// Every set of faults, each fault in four variants: the first of the set is the refusal.
use crate::parts;
use crate::parts::{Asked, Finding};
use pixel::RebuiltPixel;
use pyramid::Settings;
use refusals::Refusal;
use test_support::faults::{Faults, check_sets};
use test_support::reporting::Tally;

// The faults in their order.
const ORDER: [Refusal; 10] = [
    Refusal::Size,
    Refusal::Depth,
    Refusal::Columns,
    Refusal::Rows,
    Refusal::Kernel,
    Refusal::BlackWhite,
    Refusal::Bin,
    Refusal::LevelsLength,
    Refusal::Place,
    Refusal::Index,
];

// Levels of 45, 15 and 6 nodes.
const BASE: Settings = Settings {
    columns: 5,
    rows: 9,
    depth: 2,
    kernel: 4,
    black: 16,
    white: 235,
    bins: [3, 2, 1, 0, 0, 0, 0],
};

// The pixel that is asked for: its windows are columns 1 to 2 and rows 2 to 4 of level 1, and all of level 2.
const COLUMN: u16 = 4;

const ROW: u16 = 6;

// The top is 200 everywhere and all else is 0, so that each pixel is 200. Read are 1 + 2 x 3 + 2 x 3.
const ANSWER: RebuiltPixel = RebuiltPixel {
    pixel: 200,
    read: 13,
};

// An index in a place.
#[derive(Clone, Copy)]
struct Put {
    place: usize,
    index: i16,
}

// Beside the windows: the first node of level 1, the same, the last of level 0, and the node before the pixel.
const UNREAD: [Put; 4] = [
    Put {
        place: 6,
        index: -32768,
    },
    Put {
        place: 6,
        index: 2049,
    },
    Put {
        place: 65,
        index: 32767,
    },
    Put {
        place: 54,
        index: -1366,
    },
];

// In the windows, next to what is lawful: the first node of level 2 and its last, the first of the window of level 1, the pixel itself.
const READ: [Put; 4] = [
    Put {
        place: 0,
        index: 4097,
    },
    Put {
        place: 5,
        index: -4097,
    },
    Put {
        place: 13,
        index: 2049,
    },
    Put {
        place: 55,
        index: -1366,
    },
];

// The indices with an unlawful one beside the windows, or with its fault in them.
fn levels(faults: Faults) -> [i16; 72] {
    let mut levels: [i16; 72] = [0; 72];
    levels[..6].fill(200);
    let put = faults.choose(Refusal::Index, READ, UNREAD);
    if let Some(index) = levels.get_mut(put.place) {
        *index = put.index;
    }
    levels
}

// The first of the faults is answered, or the pixel where there is none.
fn check(faults: Faults) -> Option<Finding> {
    let column = faults.choose(Refusal::Place, [5, COLUMN, 65535, COLUMN], [COLUMN; 4]);
    let row = faults.choose(Refusal::Place, [ROW, 9, ROW, 65535], [ROW; 4]);
    let n: usize = faults.choose(Refusal::LevelsLength, [65, 67, 0, 72], [66; 4]);
    let asked = Asked {
        settings: faults.put_in(BASE),
        column,
        row,
    };
    parts::check(asked, &levels(faults)[..n.min(72)], faults.answer(ANSWER))
}

// All sets, four checks each.
pub(crate) fn all() -> Tally<Finding> {
    check_sets(&ORDER, 1024, check)
}
