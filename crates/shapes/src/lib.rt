// The records of a layout, and the functions on them that accept every f64 and refuse none.
#![tactic(auto)]

pub mod bounds;
pub mod circle;
pub mod extremes;
pub mod point;
pub mod rectangle;
