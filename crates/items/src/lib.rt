// Single MessagePack items, read from a window of bytes.
#![tactic(auto)]

mod behind;
pub mod buffer;
pub mod fault;
pub mod head;
pub mod integer;
pub mod item;
pub mod length;
pub mod number;
pub mod part;
