// Reading v04 payloads: arrays of traces, which are arrays of span maps.
#![tactic(auto)]

mod plain;
pub mod receiver;
pub mod rows;
pub mod span;
pub mod v04;
