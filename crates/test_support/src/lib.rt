// What the test programs share: numbers from bytes, cases from a file, filled and compared buffers, compared answers, counts, and sets of faults.
#![tactic(auto)]

pub mod answers;
pub mod comparing;
pub mod decoding;
pub mod faults;
pub mod fillers;
pub mod numbered;
pub mod reading;
pub mod reporting;
pub mod rooms;
pub mod sizes;
