// The buffers that are lent to a call.
use std::array;
use test_support::fillers::{byte_filler, lawful_index, work_filler};

// A node as a rebuilding leaves it.
#[derive(Clone, Copy)]
pub(crate) struct Node {
    pub value: i32,
    pub pixel: u8,
}

// An index put at a place of the level buffer before a call. A lawful one is put at a place of level 0, so that in a rebuilding it changes
// one node alone, this one. An unlawful one is refused, so that there is none.
#[derive(Clone, Copy)]
pub(crate) struct Put {
    pub place: usize,
    pub index: i16,
    pub node: Option<Node>,
}

impl Put {
    pub(crate) fn unlawful(place: usize, index: i16) -> Self {
        Put {
            place,
            index,
            node: None,
        }
    }
}

// A pixel put at a place of the picture before a coding.
#[derive(Clone, Copy)]
pub(crate) struct Dot {
    pub place: usize,
    pub pixel: u8,
}

#[derive(Clone, Copy, PartialEq, Eq)]
pub(crate) struct Buffers {
    pub picture: [u8; 48],
    pub levels: [i16; 72],
    pub work: [i32; 72],
}

// Changes a place, where there is one.
pub(crate) fn set<T: Copy>(buffer: &mut [T], place: usize, value: T) {
    if let Some(old) = buffer.get_mut(place) {
        *old = value;
    }
}

// A pixel that is other at each place, of the greys 16 to 63.
fn grey_filler(i: usize) -> u8 {
    byte_filler(i).saturating_add(16)
}

impl Buffers {
    // With fillers everywhere; every pixel lies between 16 and 235, every index is lawful at every bin.
    pub(crate) fn filled() -> Self {
        Buffers {
            picture: array::from_fn(grey_filler),
            levels: array::from_fn(lawful_index),
            work: array::from_fn(work_filler),
        }
    }

    // With an index put in the level buffer.
    pub(crate) fn with(self, put: Option<Put>) -> Self {
        let mut buffers = self;
        if let Some(put) = put {
            set(&mut buffers.levels, put.place, put.index);
        }
        buffers
    }

    // With a pixel put in the picture.
    pub(crate) fn dotted(self, dot: Option<Dot>) -> Self {
        let mut buffers = self;
        if let Some(dot) = dot {
            set(&mut buffers.picture, dot.place, dot.pixel);
        }
        buffers
    }
}
