// Replacement of duplicate operands in a machine in lent tables.
#![tactic(auto)]

pub mod additions;
pub mod instruction;
pub mod replace;
pub mod replace_duplicates;
pub mod run;
