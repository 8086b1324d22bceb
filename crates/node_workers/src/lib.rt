//! A worker makes the calls of one node in their order, each after a gate.
#![tactic(auto)]

mod actors;
mod gates;
#[cfg(test)]
mod tests;
mod workers;

pub use actors::{Actor, Called};
pub use gates::{Gate, OpenGate};
pub use workers::run_node;
