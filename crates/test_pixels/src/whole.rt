// The whole picture, to which each of its pixels is held.
use crate::parts::{Asked, Finding, Part};
use pixel::RebuiltPixel;
use pyramid::Settings;
use test_support::answers::compare_value;

pub(crate) const MOST_NODES: usize = 22359;

pub(crate) const MOST_PIXELS: usize = 16641;

// The picture that a rebuilding leaves, in the first places of a buffer; nothing where the rebuilding is refused.
pub(crate) fn rebuilt<'a>(
    s: Settings,
    levels: &[i16],
    picture: &'a mut [u8; MOST_PIXELS],
) -> Option<&'a [u8]> {
    let mut work: [i32; MOST_NODES] = [0; MOST_NODES];
    let lent = picture.get_mut(..usize::from(s.columns) * usize::from(s.rows))?;
    match pyramid::rebuilding(s, levels, lent, &mut work) {
        Ok(()) => Some(lent),
        Err(_) => None,
    }
}

// A pixel that is not the one of the whole picture.
pub(crate) fn compare(asked: Asked, picture: &[u8], got: RebuiltPixel) -> Option<Finding> {
    let expected = usize::from(asked.of_picture(picture));
    compare_value(Part::WholePixel, usize::from(got.pixel), expected)
}
