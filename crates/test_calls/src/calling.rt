// Calls whose outcome is known at every place of every buffer. A call that is refused must leave all as it was; one that is
// accepted is lent a picture of one grey, or the levels of such a picture.
use crate::buffers::{Buffers, Dot, Put, set};
use pyramid::Settings;
use refusals::Refusal;
use std::array;
use test_support::fillers::unlawful_index;
use test_support::rooms::Lengths;

// What a call is lent, and what it is to answer: settings, how many places of each buffer, and an index and a pixel that are put in the level
// buffer and in the picture first.
#[derive(Clone, Copy)]
pub(crate) struct Case {
    pub settings: Settings,
    pub lengths: Lengths,
    pub put: Option<Put>,
    pub dot: Option<Dot>,
    pub answer: Result<(), Refusal>,
}

// What a call answers, and what it leaves in the buffers.
pub(crate) type Outcome = (Result<(), Refusal>, Buffers);

// The outcome of a call that is lent the first places of the buffers.
fn outcome<F: FnOnce(&mut [u8], &mut [i16], &mut [i32]) -> Result<(), Refusal>>(
    n: Lengths,
    buffers: Buffers,
    call: F,
) -> Outcome
    requires { F.IsAlwaysCallable call }
{
    let mut picture = buffers.picture;
    let mut levels = buffers.levels;
    let mut work = buffers.work;
    let p = n.picture.min(48);
    let l = n.levels.min(72);
    let w = n.work.min(72);
    let answer = call(&mut picture[..p], &mut levels[..l], &mut work[..w]);
    let left = Buffers {
        picture,
        levels,
        work,
    };
    (answer, left)
}

// Kept: this and the next two name the three calls, which take the buffers in another order; what they do is `outcome`.
pub(crate) fn coding(s: Settings, n: Lengths, buffers: Buffers) -> Outcome {
    outcome(n, buffers, |picture, levels, work| {
        pyramid::coding(s, picture, levels, work)
    })
}

pub(crate) fn closed_loop_coding(s: Settings, n: Lengths, buffers: Buffers) -> Outcome {
    outcome(n, buffers, |picture, levels, work| {
        pyramid::closed_loop_coding(s, picture, levels, work)
    })
}

pub(crate) fn rebuilding(s: Settings, n: Lengths, buffers: Buffers) -> Outcome {
    outcome(n, buffers, |picture, levels, work| {
        pyramid::rebuilding(s, levels, picture, work)
    })
}

// A picture that is 200 everywhere: so is every average, since the weights of a step sum to 1; every difference is 0.
pub(crate) const GREY: u8 = 200;

// The top: its nodes, its index of 200, and that index times its bin, which is then every value of every level, and how it is shown.
#[derive(Clone, Copy)]
struct Top {
    nodes: usize,
    index: i16,
    value: i32,
    pixel: u8,
}

impl Top {
    // The top's bin is 1 or 255. At 255 the index of 200 is 1, for 255 < 400 and 400 <= 765. No value is shown below black or above white.
    fn of(s: Settings) -> Self {
        let (nodes, bin) = if s.depth == 0 {
            (4, s.bins[0])
        } else {
            (6, s.bins[2])
        };
        let (index, value): (i16, u16) = if bin == 255 { (1, 255) } else { (200, 200) };
        Top {
            nodes,
            index,
            value: i32::from(value),
            pixel: value.max(s.black).min(s.white).min(255) as u8,
        }
    }

    // The index of a place: the top comes first.
    fn index_at(self, place: usize) -> i16 {
        if place < self.nodes { self.index } else { 0 }
    }
}

// What a coding leaves: the top's index and zeros, and the averages; in the work buffer nothing more.
fn coded(before: Buffers, top: Top, nodes: usize) -> Buffers {
    let mut left = before;
    let n = nodes.min(72);
    for (i, index) in left.levels[..n].iter_mut().enumerate() {
        *index = top.index_at(i);
    }
    left.work[..n].fill(200);
    left
}

// The index of a place and the value that a closed-loop coding leaves there. A top of bin 255 makes 255 of 200; at a bin of 2 the -55 that are
// left have index -28, since -114 < -110 and -110 <= -110, and make 199; at a bin of 3 the 1 that is left has index 0.
fn closed_at(top: Top, place: usize) -> (i16, i32) {
    if place < top.nodes {
        (top.index, top.value)
    } else if top.value == 200 {
        (0, 200)
    } else if place < 21 {
        (-28, 199)
    } else {
        (0, 199)
    }
}

// What it leaves in both buffers.
fn closed(before: Buffers, top: Top, nodes: usize) -> Buffers {
    let mut left = before;
    let n = nodes.min(72);
    for i in 0..n {
        let (index, value) = closed_at(top, i);
        left.levels[i] = index;
        left.work[i] = value;
    }
    left
}

// What a call is lent that is to be refused.
fn before(case: Case) -> Buffers {
    Buffers::filled().with(case.put).dotted(case.dot)
}

// Whether both codings answer and leave what is expected: where they are refused, every place as it was.
pub(crate) fn coding_gives(case: Case) -> bool {
    let s = case.settings;
    let n = case.lengths;
    match case.answer {
        Ok(()) => {
            let before = Buffers {
                picture: [GREY; 48],
                levels: array::from_fn(unlawful_index),
                ..Buffers::filled()
            };
            let top = Top::of(s);
            coding(s, n, before) == (Ok(()), coded(before, top, n.levels))
                && closed_loop_coding(s, n, before) == (Ok(()), closed(before, top, n.levels))
        }
        Err(refusal) => {
            let before = before(case);
            coding(s, n, before) == (Err(refusal), before)
                && closed_loop_coding(s, n, before) == (Err(refusal), before)
        }
    }
}

// What a rebuilding leaves: the values and the pixels; in the work buffer nothing more. Level 0 comes last.
fn rebuilt(before: Buffers, top: Top, n: Lengths, put: Option<Put>) -> Buffers {
    let mut left = before;
    let l = n.levels.min(72);
    let p = n.picture.min(48);
    left.work[..l].fill(top.value);
    left.picture[..p].fill(top.pixel);
    if let Some(
        Put {
            place,
            node: Some(node),
            ..
        },
    ) = put
    {
        let above = l.saturating_sub(p);
        set(&mut left.work, place, node.value);
        set(&mut left.picture, place.saturating_sub(above), node.pixel);
    }
    left
}

// Whether a rebuilding answers and leaves what is expected: where it is refused, every place as it was, the index that was put among them.
pub(crate) fn rebuilding_gives(case: Case) -> bool {
    let s = case.settings;
    let n = case.lengths;
    match case.answer {
        Ok(()) => {
            let top = Top::of(s);
            let levels = Buffers {
                levels: array::from_fn(|i| top.index_at(i)),
                ..Buffers::filled()
            };
            let before = levels.with(case.put);
            rebuilding(s, n, before) == (Ok(()), rebuilt(before, top, n, case.put))
        }
        Err(refusal) => {
            let before = before(case);
            rebuilding(s, n, before) == (Err(refusal), before)
        }
    }
}
