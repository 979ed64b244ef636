// The small steps of yogi's codegen.rs: the counters, what is appended to a lent table, and what is emitted for an operator.
#![tactic(auto)]

pub mod operators;
pub mod state;
