// Which pixel is asked for, and the parts of what is answered.
use pixel::RebuiltPixel;
use pyramid::Settings;
use refusals::Refusal;
use std::fmt;
use test_support::answers::{compare, compare_value};
use test_support::decoding::byte_at;
use test_support::reporting;
use test_support::reporting::{Spot, of_call};

// A pixel of a picture.
#[derive(Clone, Copy)]
pub(crate) struct Asked {
    pub settings: Settings,
    pub column: u16,
    pub row: u16,
}

impl fmt::Display for Asked {
    fn fmt<W: fmt::Write>(&self, f: &mut fmt::Formatter<W>) -> fmt::Result {
        let s = self.settings;
        write!(
            f,
            "{} by {}, depth {}, kernel {}, ",
            s.columns, s.rows, s.depth, s.kernel
        )?;
        write!(f, "column {}, row {}", self.column, self.row)
    }
}

impl Asked {
    pub(crate) fn rebuild(self, levels: &[i16]) -> Result<RebuiltPixel, Refusal> {
        pixel::rebuild_pixel(self.settings, levels, self.column, self.row)
    }

    // The pixel in a whole picture, row after row.
    pub(crate) fn of_picture(self, picture: &[u8]) -> u8 {
        let columns = usize::from(self.settings.columns);
        byte_at(
            picture,
            usize::from(self.row) * columns + usize::from(self.column),
        )
    }
}

// For an answer the place is what was answered; for an index it is its place in the level buffer.
#[derive(Clone, Copy)]
pub(crate) enum Part {
    EndOfFile,
    UnknownRefusal,
    Settings,
    Refusal,
    Pixel,
    Read,
    WholePicture,
    WholePixel,
    LookedAt,
    Unread,
}

impl fmt::Display for Part {
    fn fmt<W: fmt::Write>(&self, f: &mut fmt::Formatter<W>) -> fmt::Result {
        f.write_str(match *self {
            Part::EndOfFile => "end of file",
            Part::UnknownRefusal => "unknown refusal",
            Part::Settings => "settings",
            Part::Refusal => "refusal",
            Part::Pixel => "pixel",
            Part::Read => "number of indices read",
            Part::WholePicture => "whole picture",
            Part::WholePixel => "pixel other than that of the whole picture",
            Part::LookedAt => "number of indices that are looked at",
            Part::Unread => "answer changed by the index at",
        })
    }
}

pub(crate) type Finding = reporting::Finding<Spot<Asked, Part>>;

fn compare_values(got: RebuiltPixel, expected: RebuiltPixel) -> Option<Finding> {
    let pixel = compare_value(
        Part::Pixel,
        usize::from(got.pixel),
        usize::from(expected.pixel),
    );
    pixel.or(compare_value(
        Part::Read,
        usize::from(got.read),
        usize::from(expected.read),
    ))
}

// An answer that is not the one expected.
pub(crate) fn compare_answers(
    asked: Asked,
    got: Result<RebuiltPixel, Refusal>,
    expected: Result<RebuiltPixel, Refusal>,
) -> Option<Finding> {
    of_call(asked, compare(Part::Refusal, got, expected, compare_values))
}

// The same of what is rebuilt from levels.
pub(crate) fn check(
    asked: Asked,
    levels: &[i16],
    expected: Result<RebuiltPixel, Refusal>,
) -> Option<Finding> {
    compare_answers(asked, asked.rebuild(levels), expected)
}

// What is found where the file ends before a case does.
pub(crate) fn cut() -> Finding {
    Finding::of_part(Part::EndOfFile, 0)
}
