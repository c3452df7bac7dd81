// Checks rows of the quantizer and worked pieces of documents 01 and 02 by calls, and every refusal of both codings and rebuilding in its order, with what it leaves in the lent buffers.
#![tactic(auto)]

mod base;
mod buffers;
mod calling;
mod closed;
mod combinations;
mod faults;
mod greys;
mod lengths;
mod pieces;
mod rows;
mod shapes;

use std::io;
use test_support::reporting::print_checks;

fn main(rt: HostRuntime) -> io::Result<()> {
    let mut out = rt.stdout();
    for (group, t) in [
        ("rounding", rows::rounded()),
        ("bin rule", rows::indices()),
        ("limits of indices", rows::limits()),
        ("piece A", pieces::piece_a()),
        ("closed loop", closed::pieces()),
        ("black and white", greys::all()),
        ("sizes", pieces::sizes()),
        ("deepest depth", pieces::deepest_depths()),
        ("index limit", pieces::index_limit()),
        ("faulty settings", faults::all()),
        ("lengths of buffers", lengths::all()),
        ("combinations of faults, coding", combinations::coding()),
        (
            "combinations of faults, rebuilding",
            combinations::rebuilding(),
        ),
    ] {
        print_checks(&mut out, group, &t)?;
    }
    Ok(())
}
