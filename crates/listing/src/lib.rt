// The listing of a trace: which span is whose parent.
#![tactic(auto)]

pub mod parents;
pub mod row;
