// Links and events of a span, told to a receiver.
#![tactic(auto)]

pub mod event;
pub mod link;
