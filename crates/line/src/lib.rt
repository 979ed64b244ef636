// Lowering of a line, and how many instructions its first section takes.
#![tactic(auto)]

pub mod heads;
pub mod line;
