// The parts of a case that can differ.
use pyramid::Manner;
use std::convert::Infallible;
use std::fmt;
use test_support::reporting;
use test_support::reporting::Spot;

// For an answer and a number of nodes the place is the one that was answered.
#[derive(Clone, Copy)]
pub(crate) enum Part {
    EndOfFile,
    Settings,
    NodesAnswer,
    Nodes,
    BoundsAnswer(Manner),
    Bound,
    CodingAnswer(Manner),
    Index,
    Average,
    CodedValue,
    AfterCoding(Manner),
    RebuildingAnswer,
    Value,
    Pixel,
    AfterRebuilding,
    RefusedPicture,
    RefusedWork,
}

impl fmt::Display for Part {
    fn fmt<W: fmt::Write>(&self, f: &mut fmt::Formatter<W>) -> fmt::Result {
        f.write_str(match *self {
            Part::EndOfFile => "end of file",
            Part::Settings => "settings",
            Part::NodesAnswer => "answer of the number of nodes",
            Part::Nodes => "number of nodes",
            Part::BoundsAnswer(Manner::OpenLoop) => "answer of the bounds",
            Part::BoundsAnswer(Manner::ClosedLoop) => "answer of the closed-loop bounds",
            Part::Bound => "bound of slot",
            Part::CodingAnswer(Manner::OpenLoop) => "answer of coding",
            Part::CodingAnswer(Manner::ClosedLoop) => "answer of closed-loop coding",
            Part::Index => "index",
            Part::Average => "average",
            Part::CodedValue => "value of closed-loop coding",
            Part::AfterCoding(Manner::OpenLoop) => "work after coding, place",
            Part::AfterCoding(Manner::ClosedLoop) => "work after closed-loop coding, place",
            Part::RebuildingAnswer => "answer of rebuilding",
            Part::Value => "rebuilt value",
            Part::Pixel => "pixel",
            Part::AfterRebuilding => "work after rebuilding, place",
            Part::RefusedPicture => "picture of a refused rebuilding, place",
            Part::RefusedWork => "work of a refused rebuilding, place",
        })
    }
}

// A part says of which call it is, so that no call stands beside it.
pub(crate) type Finding = reporting::Finding<Spot<Infallible, Part>>;

// What is found where the file ends before a case does.
pub(crate) fn cut() -> Finding {
    Finding::of_part(Part::EndOfFile, 0)
}

// What is found where settings have no sizes.
pub(crate) fn no_sizes() -> Finding {
    Finding::of_part(Part::Settings, 0)
}
