// Attributes of events: a type number and a value, which may be an array.
#![tactic(auto)]

pub mod attribute;
pub mod element;
pub mod judge;
