// Definitions and laws of whole numbers, sums, tests and lists, for the specifications and proofs of the crates above. No functions.
#![tactic(auto)]
