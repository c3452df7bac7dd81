// Holds coding, rebuilding, T and the bounds to vectors that another implementation made (tests/reference).
#![tactic(auto)]

mod cases;
mod coding;
mod levels_cases;
mod parts;
mod pyramid_cases;
mod rebuilding;
mod shape;

use parts::no_sizes;
use pyramid::Manner;
use std::{fs, io};
use test_support::decoding::Form;
use test_support::reporting;

// What the cases of a file hold: a coding in a manner and the rebuilding from it, or a rebuilding from levels that no coding made.
#[derive(Clone, Copy)]
enum Kind {
    Coding(Manner),
    Rebuilding,
}

// The files, and how their cases say settings.
const FILES: [(&str, Form, Kind); 6] = [
    ("pyramid.bin", Form::Short, Kind::Coding(Manner::OpenLoop)),
    ("levels.bin", Form::Short, Kind::Rebuilding),
    ("closed.bin", Form::Short, Kind::Coding(Manner::ClosedLoop)),
    (
        "pyramid_greys.bin",
        Form::Greys,
        Kind::Coding(Manner::OpenLoop),
    ),
    ("levels_greys.bin", Form::Greys, Kind::Rebuilding),
    (
        "closed_greys.bin",
        Form::Greys,
        Kind::Coding(Manner::ClosedLoop),
    ),
];

// Runs the cases of a file and writes its line.
// Kept: what it shares with the `report` of the other programs is opening a file, and a line where that fails. A function of test_support
// that does it would be the only one there of which no clause can say anything, since none speaks of files.
fn report(rt: &HostRuntime, path: &str, form: Form, kind: Kind) -> io::Result<()> {
    let Ok(mut data) = fs::open(rt, path) else {
        return println!(rt; "{path}: cannot be opened");
    };
    let tally = cases::check_all(&mut data, form, |data, shape| match (kind, shape) {
        (Kind::Coding(manner), Some(z)) => pyramid_cases::check_read(data, z, manner),
        (Kind::Rebuilding, Some(z)) => levels_cases::check_read(data, z),
        (Kind::Coding(_), None) => Ok(Some(no_sizes())),
        (Kind::Rebuilding, None) => levels_cases::read_over(data, form),
    })?;
    reporting::print_cases(&mut rt.stdout(), path, &tally)?;
    Ok(())
}

fn main(rt: HostRuntime) -> io::Result<()> {
    for &(path, form, kind) in &FILES {
        report(&rt, path, form, kind)?;
    }
    Ok(())
}
