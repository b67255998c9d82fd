// Places that bytes are written to.
#![tactic(auto)]

pub mod count;
pub mod sink;
pub mod slice;
