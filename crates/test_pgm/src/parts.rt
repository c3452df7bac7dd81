// The calls that a case makes, and the parts of what a call answers and leaves.
use std::fmt;
use test_support::reporting;
use test_support::reporting::Spot;
use test_support::rooms::Room;

// The largest picture has 129 by 129 pixels, and its single form 15 bytes more.
pub(crate) const MOST_PIXELS: usize = 16641;

// With a place more.
pub(crate) const MOST_PLACES: usize = 16642;

pub(crate) const MOST_SINGLE: usize = 16656;

#[derive(Clone, Copy)]
pub(crate) enum Call {
    Checking,
    Reading(Room),
    Sizing,
    Writing(Room),
    WritingPicture(Room),
    ReadingBack,
}

impl fmt::Display for Call {
    fn fmt<W: fmt::Write>(&self, f: &mut fmt::Formatter<W>) -> fmt::Result {
        f.write_str(match *self {
            Call::Checking => "check_pgm",
            Call::Reading(Room::Exact) => "read_pgm",
            Call::Reading(Room::Longer) => "read_pgm with a pixel more",
            Call::Reading(Room::Shorter) => "read_pgm with a pixel fewer",
            Call::Sizing => "pgm_size",
            Call::Writing(Room::Exact) => "write_pgm",
            Call::Writing(Room::Longer) => "write_pgm with bytes more",
            Call::Writing(Room::Shorter) => "write_pgm with a byte fewer",
            Call::WritingPicture(Room::Longer) => "write_pgm of a pixel more",
            Call::WritingPicture(_) => "write_pgm of a pixel fewer",
            Call::ReadingBack => "read_pgm of what was written",
        })
    }
}

// For a refusal, a side or a size, the place is the one that was answered.
#[derive(Clone, Copy)]
pub(crate) enum Part {
    EndOfVectors,
    Refusal,
    Columns,
    Rows,
    Pixel,
    KeptPixel,
    Size,
    Byte,
    KeptByte,
}

impl fmt::Display for Part {
    fn fmt<W: fmt::Write>(&self, f: &mut fmt::Formatter<W>) -> fmt::Result {
        f.write_str(match *self {
            Part::EndOfVectors => "end of the vectors",
            Part::Refusal => "refusal",
            Part::Columns => "columns",
            Part::Rows => "rows",
            Part::Pixel => "pixel",
            Part::KeptPixel => "pixel to be kept",
            Part::Size => "size",
            Part::Byte => "byte",
            Part::KeptByte => "byte to be kept",
        })
    }
}

pub(crate) type Finding = reporting::Finding<Spot<Call, Part>>;

// What is found where the vectors end before a case does.
// Kept beside test_files's: each names a part of its own.
pub(crate) fn cut() -> Finding {
    Finding::of_part(Part::EndOfVectors, 0)
}

// All bytes but the last; none where there is none.
pub(crate) fn but_last(bytes: &[u8]) -> &[u8] {
    &bytes[..bytes.len().saturating_sub(1)]
}
