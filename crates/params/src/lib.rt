// What every layer above needs: the limits and widths, the numbers of refusals, and the options of lowering. Each has its one name here.
#![tactic(auto)]

pub mod limits;
pub mod options;
pub mod refusal;
