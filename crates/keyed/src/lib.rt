// Lists of entries under keys, over memory that the user gives.
#![tactic(auto)]

pub mod list;
pub mod sameness;
