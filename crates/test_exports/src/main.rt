// Calls every exported function with numbers that all differ, and compares each number that is handed out with documents 01 and 02.
#![tactic(auto)]

mod files;
mod grey_files;
mod greys;
mod handed;
mod kinds;
mod lent;
mod limits;
mod numbers;
mod one_pixel;
mod parts;
mod pgm_reading;
mod pgm_writing;
mod pictures;
mod refused;
mod round;
mod writing;

use std::io;
use test_support::reporting::print_checks;

fn main(rt: HostRuntime) -> io::Result<()> {
    let mut out = rt.stdout();
    for (group, t) in [
        ("deepest depth", numbers::depths()),
        ("nodes and sizes", numbers::sizes()),
        ("bounds", numbers::level_bounds()),
        ("closed-loop bounds", numbers::closed_loop_bounds()),
        ("refused settings", numbers::refusals()),
        ("coding and rebuilding", pictures::accepted()),
        ("limits of rebuilding", pictures::limits()),
        ("refused calls", refused::all()),
        ("one pixel", one_pixel::accepted()),
        ("one pixel, refused", one_pixel::refused()),
        ("small file, writing", files::written()),
        ("small file, refused settings", files::unset()),
        ("small file, reading", files::small()),
        ("file of three levels", files::three()),
        ("limits of indices", limits::indices()),
        ("limits of readings", limits::readings()),
        ("kinds of readings", kinds::refused()),
        ("black and white, pieces", greys::pieces()),
        ("black and white, rebuilding", greys::shown()),
        ("black and white, pixels outside", greys::outside()),
        ("black and white, ends", greys::ends()),
        ("file with black and white, writing", grey_files::written()),
        (
            "file with black and white, refused settings",
            grey_files::unset(),
        ),
        ("file with black and white, shapes", grey_files::shapes()),
        ("file with black and white, cut", grey_files::cut()),
        ("file with black and white, faults", grey_files::faults()),
        (
            "file with black and white, rebuilding",
            grey_files::rebuilt(),
        ),
        ("PGM sizes", pgm_writing::sizes()),
        ("PGM, writing", pgm_writing::accepted()),
        ("PGM, refused writing", pgm_writing::refusals()),
        ("PGM, reading", pgm_reading::files()),
        ("PGM, other lengths", pgm_reading::lengths()),
        ("PGM, bad headers", pgm_reading::headers()),
        ("PGM, refused reading", pgm_reading::refusals()),
        ("PGM, order of refusals", pgm_reading::order()),
        ("PGM to bale file to PGM", round::all()),
    ] {
        print_checks(&mut out, group, &t)?;
    }
    Ok(())
}
