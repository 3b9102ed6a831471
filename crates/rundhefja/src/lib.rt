// The calls of document 01 on records, as C, C++ and Rust programs have them: `rundhefja_c` exports each.
// A call does nothing but call and make C's record of the answer, and its contract has the right side of the call's.
#![tactic(auto)]

pub mod answers;
pub mod bounds;
pub mod files;
pub mod measures;
pub mod runs;
