// MessagePack items, written to any sink.
#![tactic(auto)]

mod behind;
pub mod first;
pub mod fixed;
mod form;
pub mod integer;
pub mod laws;
pub mod length;
pub mod part;
