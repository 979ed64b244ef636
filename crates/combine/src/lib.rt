// Combining, `CombineSections`: the lowest S1 whose successor S2 may be joined to it takes S2 in, and so on until there is none. The pass makes
// the same of a machine in one go: which sections are taken in is fixed by the references at the start, and each section that is not, a head, is
// written out with its whole chain of successors.
//
// `combine_all` is shown equal to `combineSections` of `rules`, by the law that joins one by one end in the gathered form (gather: `combine-gather`). It
// asks that the words hold a machine without links back, runs end to end. References are counted in one pass; each section is numbered and moved, and
// each instruction copied out and stored, once at most, the latter at a place that only rises (`store`). So a call touches of the order of sections + instructions
// words, besides clearing its own tables, and no place of the instruction table is stored into twice.
//
// `combine` is shown equal to `combine` of `rules`, and asks nothing.
#![tactic(auto)]

pub mod chains;
pub mod collect;
pub mod numbers;
pub mod references;
pub mod refusals;
pub mod store;
pub mod write;

ghost use Rattle.std.specs.Prelude.{◌≡◌, true};
ghost use Rattle.rules.specs.Combine.{combineSections};
ghost use Rattle.rules.specs.Operations as Operations;
ghost use Rattle.tables.specs.Lent.{countsTold, tables, answerTold};
ghost use Rattle.tables.specs.Runs.{held};
ghost use Rattle.combine.specs.Held.{Sound};
ghost use Rattle.combine.specs.Combined.{Combined};

use crate::collect::collect;
use crate::refusals::all_ahead;
use params::refusal::Refusal;
use tables::answer::Answer;
use tables::check::check;
use tables::counts::Counts;
use tables::fixed::all_fixed;

// Joins until no pair is left, in a machine known to keep the rules and to have no links back; the sections that are left are counted.
// The tables are lent whole, as C lends them: the contract says that what stands behind the counted words stays.
pub fn combine_all(sections: &mut [u64], instructions: &mut [u64], n: usize, e: usize) -> usize
    requires { Sound sections.old instructions.old n e × (Operations.allAhead (held sections.old instructions.old n e) 0 (held sections.old instructions.old n e) ≡ true) }
    ensures { Combined sections.old instructions.old sections.new instructions.new n e (combineSections (held sections.old instructions.old n e)) result }
{
    collect(&mut sections[..n], &mut instructions[..e])
}

// 12 where the words break the rules, then 14 where a section is unfixed, then 15 where a successor that is no line start lies below its
// section; else the machine is combined, and the words that are freed are zero.
pub fn combine(
    c: Counts,
    sections: &mut [u64],
    instructions: &mut [u64],
    numbers: &[i64],
    strings: &[u32],
    pool: &[u8],
    names: &[u16],
) -> Answer
    ensures { (answerTold result, tables sections.new instructions.new numbers.now strings.now pool.now names.now) ≡ Operations.combine (tables sections.old instructions.old numbers.now strings.now pool.now names.now) (countsTold c) }
{
    if !check(c, sections, instructions, numbers, strings, pool, names) {
        return Err(Refusal::BreaksRules);
    }
    if !all_fixed(&sections[..c.sections]) {
        return Err(Refusal::IsUnfixed);
    }
    if !all_ahead(&sections[..c.sections]) {
        return Err(Refusal::LinksBack);
    }
    let left = combine_all(sections, instructions, c.sections, c.instructions);
    Ok(c.with_code(left, c.instructions))
}
