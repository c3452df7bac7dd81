// A rebuilding, accepted or refused.
ghost use Rattle.std.specs.Prelude.{◌<◌};

use crate::parts::{Finding, Part};
use crate::shape::{AFTER, MOST_NODES, MOST_PIXELS, MOST_PLACES, Shape};
use refusals::{Refusal, answer_number};
use test_support::answers;
use test_support::comparing::{first_difference, first_other};
use test_support::decoding::{signed16_at, signed32_at};
use test_support::fillers::{byte_filler, fill, first_changed, work_filler};
use test_support::reading::{load_indices, rest};

// What is rebuilt, the answer, which is nothing where no refusal has its number, and the bytes of the values, of 32 bits each or, where they
// are not wide, of 16, and then of the picture.
#[derive(Clone, Copy)]
pub(crate) struct Case<'a> {
    pub shape: Shape,
    pub expected: Option<Result<(), Refusal>>,
    pub wide: bool,
    pub bytes: &'a [u8],
}

// The value of a place, and where the picture starts.
fn value_at(c: Case, i: usize) -> i32
    requires { i < 22359 }
{
    if c.wide {
        return signed32_at(c.bytes, 4 * i);
    }
    i32::from(signed16_at(c.bytes, 2 * i))
}

fn picture_start(c: Case) -> usize {
    if c.wide {
        return 4 * c.shape.nodes;
    }
    2 * c.shape.nodes
}

// What an accepted rebuilding leaves.
fn compare_accepted(c: Case, picture: &[u8], work: &[i32]) -> Option<Finding> {
    let nodes = c.shape.nodes;
    let value = first_other(work, 0..nodes, |i| value_at(c, i));
    let pixel = first_difference(rest(c.bytes, picture_start(c)), picture);
    let kept = first_changed(work, nodes, work_filler);
    Finding::compared(Part::Value, value)
        .or(Finding::compared(Part::Pixel, pixel))
        .or(Finding::compared(Part::AfterRebuilding, kept))
}

// A refused rebuilding changes nothing.
fn compare_refused(picture: &[u8], work: &[i32]) -> Option<Finding> {
    let pixel = first_changed(picture, 0, byte_filler);
    let place = first_changed(work, 0, work_filler);
    Finding::compared(Part::RefusedPicture, pixel).or(Finding::compared(Part::RefusedWork, place))
}

// What a rebuilding answers and leaves. An answer whose number no refusal has is never the one expected.
fn compare(c: Case, got: Result<(), Refusal>, picture: &[u8], work: &[i32]) -> Option<Finding> {
    let Some(expected) = c.expected else {
        let number = usize::from(answer_number(got));
        return Some(Finding::of_part(Part::RebuildingAnswer, number));
    };
    let left = match expected {
        Ok(()) => compare_accepted(c, picture, work),
        Err(_) => compare_refused(picture, work),
    };
    answers::compare_number(Part::RebuildingAnswer, got, expected).or(left)
}

// Rebuilds over filled buffers.
fn check_lent(c: Case, levels: &[i16], picture: &mut [u8], work: &mut [i32]) -> Option<Finding> {
    fill(picture, byte_filler);
    fill(work, work_filler);
    let got = pyramid::rebuilding(c.shape.settings, levels, picture, work);
    compare(c, got, picture, work)
}

// Rebuilds from indices in bytes.
pub(crate) fn check(c: Case, indices: &[u8]) -> Option<Finding> {
    let mut levels: [i16; MOST_NODES] = [0; MOST_NODES];
    let mut picture: [u8; MOST_PIXELS] = [0; MOST_PIXELS];
    let mut work: [i32; MOST_PLACES] = [0; MOST_PLACES];
    load_indices(indices, &mut levels);
    check_lent(
        c,
        &levels[..c.shape.nodes],
        &mut picture[..c.shape.pixels],
        &mut work[..c.shape.nodes + AFTER],
    )
}
