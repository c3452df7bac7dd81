// An accepted coding, in either manner.
use crate::parts::{Finding, Part};
use crate::shape::{AFTER, MOST_NODES, MOST_PLACES, Shape};
use pyramid::Manner;
use refusals::Refusal;
use test_support::answers;
use test_support::comparing::{first_other, indices};
use test_support::decoding::signed16_at;
use test_support::fillers::{fill, first_changed, unlawful_index, work_filler};
use test_support::reading::rest;

// What it leaves in the work buffer.
fn left_by(manner: Manner) -> Part {
    match manner {
        Manner::OpenLoop => Part::Average,
        Manner::ClosedLoop => Part::CodedValue,
    }
}

// The call itself.
fn code(
    z: Shape,
    manner: Manner,
    picture: &[u8],
    levels: &mut [i16],
    work: &mut [i32],
) -> Result<(), Refusal> {
    match manner {
        Manner::OpenLoop => pyramid::coding(z.settings, picture, levels, work),
        Manner::ClosedLoop => pyramid::closed_loop_coding(z.settings, picture, levels, work),
    }
}

// What a coding leaves. The bytes hold the indices and then the values of the work buffer, of 16 bits each.
fn compare(
    z: Shape,
    manner: Manner,
    bytes: &[u8],
    levels: &[i16],
    work: &[i32],
) -> Option<Finding> {
    let values = rest(bytes, 2 * z.nodes);
    let value = first_other(work, 0..z.nodes, |i| i32::from(signed16_at(values, 2 * i)));
    let kept = first_changed(work, z.nodes, work_filler);
    Finding::compared(Part::Index, indices(bytes, levels, levels.len()))
        .or(Finding::compared(left_by(manner), value))
        .or(Finding::compared(Part::AfterCoding(manner), kept))
}

// Codes a picture over filled buffers. The bytes hold what comes after the picture.
fn check_lent(
    z: Shape,
    manner: Manner,
    picture: &[u8],
    bytes: &[u8],
    levels: &mut [i16],
    work: &mut [i32],
) -> Option<Finding> {
    fill(levels, unlawful_index);
    fill(work, work_filler);
    let got = code(z, manner, picture, levels, work);
    let left = compare(z, manner, bytes, levels, work);
    answers::compare_number(Part::CodingAnswer(manner), got, Ok(())).or(left)
}

// Codes the picture that the case starts with.
pub(crate) fn check(z: Shape, manner: Manner, case: &[u8]) -> Option<Finding> {
    let mut levels: [i16; MOST_NODES] = [0; MOST_NODES];
    let mut work: [i32; MOST_PLACES] = [0; MOST_PLACES];
    let pixels = z.pixels.min(case.len());
    check_lent(
        z,
        manner,
        &case[..pixels],
        &case[pixels..],
        &mut levels[..z.nodes],
        &mut work[..z.nodes + AFTER],
    )
}
