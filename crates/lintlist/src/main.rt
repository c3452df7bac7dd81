// Lists the bale file on standard input (document 01, "Small pieces, worked").
#![tactic(auto)]

mod input;
mod listing;

use std::io;

// Room for the largest file and one byte more: what a longer input is refused for shows in these.
const ROOM: usize = 44775;

// Where the input can't be read, or the listing not be written, the error is answered.
fn list(rt: &HostRuntime, space: &mut [u8]) -> io::Result<()> {
    let n = input::read_all(&mut rt.stdin(), space)?;
    listing::print(&mut rt.stdout(), &space[0..n])
}

fn main(rt: HostRuntime) -> io::Result<()> {
    let mut space: [u8; ROOM] = [0; ROOM];
    list(&rt, &mut space)
}
