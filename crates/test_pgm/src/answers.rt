// How an answer differs from what is expected: a value, or a refusal.
use crate::parts::{Finding, Part};
use pyramid::Dimensions;
use refusals::Refusal;
use test_support::answers;
use test_support::answers::compare_value;

// What a file holds.
#[derive(Clone, Copy)]
pub(crate) struct Picture<'a> {
    pub size: Dimensions,
    pub pixels: &'a [u8],
}

// Kept: side by side, since it is shown which side differs, and `==` says only that one does.
fn compare_sides(got: Dimensions, e: Dimensions) -> Option<Finding> {
    let columns = compare_value(Part::Columns, got.columns.into(), e.columns.into());
    columns.or(compare_value(Part::Rows, got.rows.into(), e.rows.into()))
}

// The first difference of a reader's answer.
// Kept: what it shares with test_files is `answers::compare`; the values, and how they are compared, differ.
pub(crate) fn compare(
    got: Result<Dimensions, Refusal>,
    e: Result<Picture, Refusal>,
) -> Option<Finding> {
    answers::compare(Part::Refusal, got, e, |size, picture| {
        compare_sides(size, picture.size)
    })
}
