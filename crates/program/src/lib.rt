// Lowering of a whole tree: all lines, the words of names, the whole.
#![tactic(auto)]

pub mod lines;
pub mod name_words;
pub mod program;
