// Cleaning: unfixed sections are removed from a machine in lent tables, and targets follow.
#![tactic(auto)]

pub mod clean;
pub mod number;
pub mod pack;
pub mod remove_unfixed_sections;
pub mod retarget;
