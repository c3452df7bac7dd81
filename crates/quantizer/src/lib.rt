// Rounding and the bin rule (document 01, "Pyramid steps") for rows of 32-bit sums and values, with 16-bit divisors and bins, and the test of
// a row of 16-bit indices.
#![tactic(auto)]

mod dividing;
mod indexing;
mod quotients;
mod testing;

// Each sum of a row over a divisor, rounded.
pub use quotients::round_row;

// The index of each value of a row at a bin.
pub use indexing::index_row;

// Whether the values of all indices of a row, as numbers or as pairs of bytes, lie within a limit of 0.
pub use testing::{indices_within, pairs_within};
