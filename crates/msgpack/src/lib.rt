// What MessagePack's formats say of bytes: first bytes, widths, doubles, texts.
#![tactic(auto)]

pub mod double;
pub mod marker;
pub mod text;
