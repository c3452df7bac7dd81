// Holds PGM pictures to files that another implementation answered (tests/reference), both readers and the writer to sets of faults, and numbers in decimal to digits written out by hand.
#![tactic(auto)]

mod answers;
mod cases;
mod faults;
mod numbers;
mod parts;
mod readers;
mod sizes;
mod texts;
mod writers;

use std::{fs, io};
use test_support::reporting::{print_cases, print_checks};

// Runs the cases of the vectors and writes their lines: all, and those of each answer that they say.
// Kept: what it shares with the `report` of the other programs is opening a file, and a line where that fails. A function of test_support
// that does it would be the only one there of which no clause can say anything, since none speaks of files.
fn report(rt: &HostRuntime, path: &str) -> io::Result<()> {
    let Ok(mut data) = fs::open(rt, path) else {
        return println!(rt; "{path}: cannot be opened");
    };
    let found = cases::check_all(&mut data)?;
    let mut out = rt.stdout();
    print_cases(&mut out, path, &found.all)?;
    print_cases(&mut out, "accepted", &found.accepted)?;
    print_cases(&mut out, "refused with 1", &found.size)?;
    print_cases(&mut out, "refused with 16", &found.header)?;
    print_cases(&mut out, "refused with 17", &found.greatest)?;
    print_cases(&mut out, "refused with 18", &found.pixels)?;
    Ok(())
}

fn main(rt: HostRuntime) -> io::Result<()> {
    report(&rt, "pgm.bin")?;
    let mut out = rt.stdout();
    print_cases(&mut out, "sets of faults, reading", &faults::check_all())?;
    print_cases(&mut out, "sizes of files", &sizes::check_sizes())?;
    print_cases(
        &mut out,
        "sets of faults, writing",
        &sizes::check_writings(),
    )?;
    print_checks(
        &mut out,
        "numbers in decimal, writing",
        &numbers::check_all(),
    )?;
    print_checks(
        &mut out,
        "numbers in decimal, digits and limits",
        &texts::lengths(),
    )?;
    print_checks(&mut out, "numbers in decimal, places", &texts::places())?;
    Ok(())
}
