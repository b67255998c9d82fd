// The names of fields, and the fields that each record can have.
#![tactic(auto)]

pub mod keys;
pub mod table;
