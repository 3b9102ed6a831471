// What a call takes: the limits of its numbers, what it refuses, and the runs of records that a caller lends.
#![tactic(auto)]

pub mod arrays;
pub mod blanks;
pub mod checks;
pub mod limits;
pub mod masks;
