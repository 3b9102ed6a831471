// The card file: its fields, one by one, and the card that a whole file holds.
#![tactic(auto)]

pub mod card;
pub mod cards;
pub mod fields;
pub mod tags;
mod words;
