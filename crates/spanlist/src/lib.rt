// The listing of a whole payload.
#![tactic(auto)]

pub mod gather;
pub mod line;
pub mod list;
pub mod refusal;
