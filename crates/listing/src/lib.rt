// What finlist prints, as bytes in a lent slice: a machine's rows, or a refusal.
#![tactic(auto)]

pub mod listing;
pub mod row;
mod rows;
