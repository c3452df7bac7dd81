// Every pixel of pictures with sides 2 to 9, at every depth with every kernel: it is the pixel of the whole picture, as many indices are looked
// at as are said to be read, and no other has a part in what is answered.
use crate::parts::{Asked, Finding, Part};
use crate::whole;
use crate::whole::MOST_PIXELS;
use pixel::RebuiltPixel;
use pyramid::Settings;
use refusals::Refusal;
use std::array;
use test_support::answers::{compare, compare_value};
use test_support::fillers::fill;
use test_support::reporting::{Tally, of_call};

// The nodes of 9 by 9 at depth 3: 81 + 25 + 9 + 4.
const MOST: usize = 119;

// Bins of 5 and more; black and white are not the ends of a byte.
fn settings(columns: u16, rows: u16, depth: u16, kernel: u16) -> Settings {
    Settings {
        columns,
        rows,
        depth,
        kernel,
        black: 1,
        white: 254,
        bins: array::from_fn(|slot| {
            if slot <= usize::from(depth) {
                5 + slot as u16
            } else {
                0
            }
        }),
    }
}

// Lawful indices that make pixels between black and white, few alike: large ones at the top, and below it small ones on both sides of 0.
fn index_of(place: usize, top: usize) -> i16 {
    if place < top {
        (15 + place % 7) as i16
    } else {
        (place % 13) as i16 - 6
    }
}

// What is answered where an index that is lawful at no bin stands in a place.
fn with_unlawful(asked: Asked, levels: &[i16], place: usize) -> Result<RebuiltPixel, Refusal> {
    let mut buffer: [i16; MOST] = [0; MOST];
    let n = levels.len().min(MOST);
    buffer[..n].copy_from_slice(&levels[..n]);
    if let Some(index) = buffer.get_mut(place) {
        *index = -32768;
    }
    asked.rebuild(&buffer[..n])
}

// An unlawful index in a place is refused as often as an index is said to be read; elsewhere it changes nothing.
fn check_looks(asked: Asked, levels: &[i16], answer: RebuiltPixel) -> Option<Finding> {
    let mut count: usize = 0;
    for place in 0..levels.len() {
        let got = with_unlawful(asked, levels, place);
        if got == Err(Refusal::Index) {
            count = count.saturating_add(1);
        } else if got != Ok(answer) {
            return Some(Finding::of_part(Part::Unread, place));
        }
    }
    compare_value(Part::LookedAt, count, usize::from(answer.read))
}

fn check_pixel(asked: Asked, levels: &[i16], picture: &[u8]) -> Option<Finding> {
    let got = asked.rebuild(levels);
    let found = compare(Part::Refusal, got, Ok(()), |answer, ()| {
        whole::compare(asked, picture, answer).or(check_looks(asked, levels, answer))
    });
    of_call(asked, found)
}

// A picture of settings that have so many nodes, of which so many are the top's.
fn check_picture(t: &mut Tally<Finding>, settings: Settings, nodes: usize, top: usize) {
    let mut levels: [i16; MOST] = [0; MOST];
    let levels = &mut levels[..nodes.min(MOST)];
    fill(levels, |place| index_of(place, top));
    let mut picture: [u8; MOST_PIXELS] = [0; MOST_PIXELS];
    let Some(picture) = whole::rebuilt(settings, levels, &mut picture) else {
        t.count(Some(Finding::of_part(Part::WholePicture, 0)));
        return;
    };
    for row in 0..settings.rows {
        for column in 0..settings.columns {
            let asked = Asked {
                settings,
                column,
                row,
            };
            t.count(check_pixel(asked, levels, picture));
        }
    }
}

// Each depth that a size allows, with each kernel.
fn check_size(t: &mut Tally<Finding>, columns: u16, rows: u16) {
    for depth in 0..4 {
        for kernel in 3..7 {
            let s = settings(columns, rows, depth, kernel);
            if let (Ok(nodes), Ok(top)) = (pyramid::total_nodes(s), pyramid::level_size(s, depth)) {
                let top = usize::from(top.columns) * usize::from(top.rows);
                check_picture(t, s, usize::from(nodes), top);
            }
        }
    }
}

pub(crate) fn all() -> Tally<Finding> {
    let mut t = Tally::new();
    for columns in 2..10 {
        for rows in 2..10 {
            check_size(&mut t, columns, rows);
        }
    }
    t
}
