// The calls that a case makes, and the parts of what a call answers and leaves.
use std::fmt;
use test_support::reporting;
use test_support::reporting::Spot;
use test_support::rooms::Room;

// The largest file that is accepted has 44,774 bytes and 22,359 nodes.
pub(crate) const MOST_BYTES: usize = 44774;

pub(crate) const MOST_PLACES: usize = 22360;

#[derive(Clone, Copy)]
pub(crate) enum Call {
    Checking,
    Reading(Room),
    Sizing,
    Writing(Room),
    Coding,
    Decoding,
}

impl fmt::Display for Call {
    fn fmt<W: fmt::Write>(&self, f: &mut fmt::Formatter<W>) -> fmt::Result {
        f.write_str(match *self {
            Call::Checking => "check_file",
            Call::Reading(Room::Exact) => "read_file",
            Call::Reading(Room::Longer) => "read_file with a place more",
            Call::Reading(Room::Shorter) => "read_file with a place fewer",
            Call::Sizing => "file_size",
            Call::Writing(Room::Exact) => "write_file",
            Call::Writing(Room::Longer) => "write_file with bytes more",
            Call::Writing(Room::Shorter) => "write_file with a byte fewer",
            Call::Coding => "reading_code",
            Call::Decoding => "coded_reading",
        })
    }
}

// For a refusal, a size or a code's kind, the place is the one that was answered.
#[derive(Clone, Copy)]
pub(crate) enum Part {
    EndOfVectors,
    Refusal,
    Setting,
    ReadingHeld,
    Index,
    KeptIndex,
    Size,
    Byte,
    KeptByte,
    Code,
}

impl fmt::Display for Part {
    fn fmt<W: fmt::Write>(&self, f: &mut fmt::Formatter<W>) -> fmt::Result {
        f.write_str(match *self {
            Part::EndOfVectors => "end of the vectors",
            Part::Refusal => "refusal",
            Part::Setting => "setting",
            Part::ReadingHeld => "reading",
            Part::Index => "index",
            Part::KeptIndex => "index to be kept",
            Part::Size => "size",
            Part::Byte => "byte",
            Part::KeptByte => "byte to be kept",
            Part::Code => "code",
        })
    }
}

pub(crate) type Finding = reporting::Finding<Spot<Call, Part>>;

// What is found where the vectors end before a case does.
// Kept beside test_pgm's: each names a part of its own.
pub(crate) fn cut() -> Finding {
    Finding::of_part(Part::EndOfVectors, 0)
}
