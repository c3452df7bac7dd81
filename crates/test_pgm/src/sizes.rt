// Sizes and writings of every two sides that are at the ends of their range, beside it or at the ends of their type. What they are to be is worked by hand.
use crate::parts;
use crate::parts::{Call, Finding, MOST_PIXELS, MOST_PLACES, Part};
use crate::writers::{AFTER, MOST_ROOM};
use pyramid::Dimensions;
use refusals::Refusal;
use std::array;
use test_support::comparing::first_difference;
use test_support::fillers::{byte_filler, fill, first_changed};
use test_support::reading::rest;
use test_support::reporting::{Tally, of_call};
use test_support::rooms::Room;
use test_support::sizes::compare_size;

// The number of pixels, what stands before them and the size of the file.
#[derive(Clone, Copy)]
struct Layout {
    pixels: usize,
    header: &'static [u8],
    size: usize,
}

// The one of 2 by 2, whose lengths are lent for sides that have none.
const SMALLEST: Layout = Layout {
    pixels: 4,
    header: b"P5\n2 2\n255\n",
    size: 15,
};

// Two sides, and the layout of their file, or the refusal of the size.
#[derive(Clone, Copy)]
struct Worked {
    size: Dimensions,
    layout: Result<Layout, Refusal>,
}

impl Worked {
    // The layout whose lengths are lent.
    fn lent(self) -> Layout {
        self.layout.unwrap_or(SMALLEST)
    }
}

const SIDES: [u16; 6] = [0, 1, 2, 129, 130, 65535];

// Only 2 and 129 are lawful.
fn layout_of(size: Dimensions) -> Result<Layout, Refusal> {
    match (size.columns, size.rows) {
        (2, 2) => Ok(SMALLEST),
        (2, 129) => Ok(Layout {
            pixels: 258,
            header: b"P5\n2 129\n255\n",
            size: 271,
        }),
        (129, 2) => Ok(Layout {
            pixels: 258,
            header: b"P5\n129 2\n255\n",
            size: 271,
        }),
        (129, 129) => Ok(Layout {
            pixels: 16641,
            header: b"P5\n129 129\n255\n",
            size: 16656,
        }),
        _ => Err(Refusal::Size),
    }
}

// Every two sides.
fn all_worked() -> [Worked; 36] {
    array::from_fn(|i| {
        let size = Dimensions {
            columns: SIDES[i / 6 % 6],
            rows: SIDES[i % 6],
        };
        let layout = layout_of(size);
        Worked { size, layout }
    })
}

// What a call is to answer that answers the file's size.
fn size_of(layout: Result<Layout, Refusal>) -> Result<usize, Refusal> {
    layout.map(|layout| layout.size)
}

fn check_size(w: Worked) -> Option<Finding> {
    let got = pgm::pgm_size(w.size);
    let size = compare_size(Part::Refusal, Part::Size, got, size_of(w.layout));
    of_call(Call::Sizing, size)
}

pub(crate) fn check_sizes() -> Tally<Finding> {
    let mut tally = Tally::new();
    for w in all_worked() {
        tally.count(check_size(w));
    }
    tally
}

// A picture and a buffer that are lent: each of the right length, or of more or one fewer; or no buffer.
#[derive(Clone, Copy)]
struct Lent {
    picture: Room,
    file: Option<Room>,
}

impl Lent {
    // Of the pixels and one more, those that are lent.
    fn picture_of(self, more: &[u8]) -> &[u8] {
        match self.picture {
            Room::Exact => parts::but_last(more),
            Room::Shorter => parts::but_last(parts::but_last(more)),
            Room::Longer => more,
        }
    }

    fn room(self, size: usize) -> usize {
        self.file.map_or(0, |room| room.places(size, AFTER))
    }

    // What is written, or the first refusal: of the size, of the picture, of the file.
    fn written(self, w: Worked) -> Result<Layout, Refusal> {
        match (self.picture, self.file) {
            (Room::Exact, Some(Room::Exact | Room::Longer)) => w.layout,
            (Room::Exact, _) => w.layout.and(Err(Refusal::FileLength)),
            _ => w.layout.and(Err(Refusal::PictureLength)),
        }
    }
}

// A size and a picture that are lent, and what is written, or the refusal.
#[derive(Clone, Copy)]
struct Writing<'a> {
    size: Dimensions,
    picture: &'a [u8],
    written: Result<Layout, Refusal>,
}

// What an accepted writing leaves: a header, the pixels, and the bytes after them as they were.
fn compare_file(layout: Layout, picture: &[u8], out: &[u8]) -> Option<Finding> {
    let byte = first_difference(out, layout.header);
    let pixel = first_difference(rest(out, layout.header.len()), picture);
    let kept = first_changed(out, layout.size, byte_filler);
    Finding::compared(Part::Byte, byte)
        .or(Finding::compared(Part::Pixel, pixel))
        .or(Finding::compared(Part::KeptByte, kept))
}

// What a writing leaves: a refused one all as it was.
fn compare_left(x: Writing, out: &[u8]) -> Option<Finding> {
    match x.written {
        Ok(layout) => compare_file(layout, x.picture, out),
        Err(_) => {
            let kept = first_changed(out, 0, byte_filler);
            Finding::compared(Part::KeptByte, kept)
        }
    }
}

fn check_lent(x: Writing, out: &mut [u8]) -> Option<Finding> {
    fill(out, byte_filler);
    let got = pgm::write_pgm(x.size, x.picture, out);
    let size = compare_size(Part::Refusal, Part::Size, got, size_of(x.written));
    size.or(compare_left(x, out))
}

fn check_room(w: Worked, lent: Lent, picture: &[u8]) -> Option<Finding> {
    let mut out: [u8; MOST_ROOM] = [0; MOST_ROOM];
    let n = lent.room(w.lent().size).min(MOST_ROOM);
    let x = Writing {
        size: w.size,
        picture,
        written: lent.written(w),
    };
    of_call(Call::Writing(Room::Exact), check_lent(x, &mut out[..n]))
}

fn check_writing(w: Worked, lent: Lent) -> Option<Finding> {
    let mut pixels: [u8; MOST_PLACES] = [0; MOST_PLACES];
    fill(&mut pixels, byte_filler);
    let n = w.lent().pixels.min(MOST_PIXELS) + 1;
    check_room(w, lent, lent.picture_of(&pixels[..n]))
}

// Each picture and each buffer: every set of these refusals.
fn count_writings(tally: &mut Tally<Finding>, w: Worked) {
    for file in [
        Some(Room::Exact),
        Some(Room::Longer),
        Some(Room::Shorter),
        None,
    ] {
        for picture in [Room::Exact, Room::Shorter, Room::Longer] {
            tally.count(check_writing(w, Lent { picture, file }));
        }
    }
}

pub(crate) fn check_writings() -> Tally<Finding> {
    let mut tally = Tally::new();
    for w in all_worked() {
        count_writings(&mut tally, w);
    }
    tally
}
