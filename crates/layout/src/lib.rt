// Layouts: circles that belong together kept together, clusters apart, the whole about the origin. The steps work in place, over lists of
// numbers of one length: the circles' x, their y, their radii, their clusters' numbers.
#![tactic(auto)]

mod axis;
mod boxes;
pub mod container;
mod gauge;
mod lent;
pub mod normalize;
mod offset;
mod regions;
mod settling;
