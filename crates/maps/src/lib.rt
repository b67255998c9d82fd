// Maps of pairs, of every kind by one reading.
#![tactic(auto)]

pub mod key;
pub mod map;
pub mod pairs;
