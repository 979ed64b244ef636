// The words of a machine: numbers, registers, instructions, sections and strings. Everything above reads and writes words through this crate.
//
// Each function is shown equal to its definition in `rules`; nothing is assumed.
#![tactic(auto)]

pub mod instr;
pub mod number;
pub mod section;
pub mod text;
