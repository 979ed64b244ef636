// What a pass over a machine answers: the counts of the machine that is left, or a refusal. specs/Lent says it in the words of `rules`.
use crate::counts::Counts;
use params::refusal::Refusal;

pub type Answer = Result<Counts, Refusal>;
