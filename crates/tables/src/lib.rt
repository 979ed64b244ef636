// A machine in lent tables: its counts, the rules of its words, and the text of a string register. A pass over a machine checks it first.
#![tactic(auto)]

pub mod answer;
pub mod check;
pub mod counts;
pub mod fixed;
pub mod shift;
pub mod text;
pub mod word;
