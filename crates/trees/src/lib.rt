// What a payload is made of, and what takes a reading of it.
#![tactic(auto)]

pub mod keys;
pub mod receiver;
pub mod repeated;
pub mod step;
pub mod telling;
