// Lowering of statements.
#![tactic(auto)]

pub mod own;
pub mod sections;
pub mod stmt;
