// Distances and tests of points and circles.
#![tactic(auto)]

pub mod circle;
pub mod lengths;
pub mod point;
