// The static library that C, C++ and Rust programs link: each export calls the function of its name in `rundhefja`, and promises what that promises.
// A run of records or numbers passes as a pointer and a length.
#![tactic(auto)]

mod bounds;
mod files;
mod measures;
mod runs;
