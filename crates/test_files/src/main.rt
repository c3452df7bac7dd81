// Holds the bale file's readers and writer to files that another implementation answered (tests/reference), the writer to every set of faults and both forms of a file, and readings to their codes.
#![tactic(auto)]

mod answers;
mod cases;
mod codes;
mod faults;
mod greys;
mod parts;
mod piece_a;
mod readers;
mod singles;
mod writers;

use std::{fs, io};
use test_support::decoding::Form;
use test_support::reporting::print_cases;

// Runs the cases of the vectors and writes their line.
// Kept: what it shares with the `report` of the other programs is opening a file, and a line where that fails. A function of test_support
// that does it would be the only one there of which no clause can say anything, since none speaks of files.
fn report(rt: &HostRuntime, path: &str, form: Form) -> io::Result<()> {
    let Ok(mut data) = fs::open(rt, path) else {
        return println!(rt; "{path}: cannot be opened");
    };
    let tally = cases::check_all(&mut data, form)?;
    print_cases(&mut rt.stdout(), path, &tally)?;
    Ok(())
}

fn main(rt: HostRuntime) -> io::Result<()> {
    report(&rt, "files.bin", Form::Short)?;
    report(&rt, "files_greys.bin", Form::Greys)?;
    let mut out = rt.stdout();
    print_cases(&mut out, "sets of faults, writing", &faults::check_all())?;
    print_cases(&mut out, "black and white, both forms", &greys::check_all())?;
    print_cases(&mut out, "single readings, writing", &singles::check_all())?;
    print_cases(&mut out, "readings and their codes", &codes::check_all())?;
    Ok(())
}
