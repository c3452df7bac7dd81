// Holds the rebuilding of one pixel to vectors that another implementation made (tests/reference), to the whole rebuilding and to pieces worked by
// hand, and tries every refusal in its order.
#![tactic(auto)]

mod cases;
mod order;
mod parts;
mod pieces;
mod small;
mod whole;

use std::{fs, io};
use test_support::reporting::print_cases;

const FILE: &str = "pixels.bin";

// Runs the cases of the file and writes their line.
// Kept: what it shares with the `report` of the other programs is opening a file, and a line where that fails: no clause speaks of files, so that
// a function of test_support that does it could promise nothing.
fn report_file(rt: &HostRuntime) -> io::Result<()> {
    let Ok(mut data) = fs::open(rt, FILE) else {
        return println!(rt; "{FILE}: cannot be opened");
    };
    let tally = cases::check_all(&mut data)?;
    print_cases(&mut rt.stdout(), FILE, &tally)?;
    Ok(())
}

fn main(rt: HostRuntime) -> io::Result<()> {
    report_file(&rt)?;
    let mut out = rt.stdout();
    for (group, t) in [
        ("every pixel of small pictures", small::all()),
        ("piece A", pieces::piece_a()),
        ("wide picture", pieces::wide()),
        ("depth 0", pieces::flat()),
        ("numbers of indices read", pieces::counts()),
        ("indices outside the windows", pieces::outside_windows()),
        ("places outside the picture", pieces::outside_picture()),
        ("lengths of levels", pieces::lengths()),
        ("combinations of faults", order::all()),
    ] {
        print_cases(&mut out, group, &t)?;
    }
    Ok(())
}
