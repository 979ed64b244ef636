// Cleaning a machine in lent tables: 12 where its words break the rules, then 13 where a section below L is unfixed or a jump targets an
// unfixed section. The answer and every lent word afterwards are shown equal to `clean` of `rules`. Assumes nothing.
ghost use Rattle.std.specs.Prelude.{◌≡◌};
ghost use Rattle.rules.specs.Tables.{allb};
ghost use Rattle.rules.specs.Operations as Operations;
ghost use Rattle.tables.specs.Lent.{countsTold, tables, answerTold};
ghost use Rattle.clean.specs.Pass.{jumpIn};

use crate::remove_unfixed_sections::remove_unfixed_sections;
use params::refusal::Refusal;
use tables::answer::Answer;
use tables::check::check;
use tables::counts::Counts;
use tables::fixed::all_fixed;
use tables::word::is_fixed;
use words::instr::Instruction;
use words::section::SectionWord;

// A jump's target is one of the sections and fixed.
#[tactic(auto, unfolding(crate::specs::Pass::jumpIn, rules::specs::Instr::getSection, tables::specs::Runs::fixedWord))]
fn jump_fixed(sections: &[u64], w: Instruction) -> bool
    ensures { result ≡ jumpIn sections.now w.0 }
{
    let Some(target) = w.get_section() else {
        return true;
    };
    let t = usize::from(target.0);
    t < sections.len() && is_fixed(SectionWord(sections[t]))
}

fn jumps_fixed(sections: &[u64], instructions: &[u64]) -> bool
    ensures { result ≡ allb (jumpIn sections.now) instructions.now }
{
    instructions
        .iter()
        .all(|&w| jump_fixed(sections, Instruction(w)))
}

#[tactic(auto, using(crate::proofs::Cleans::ways))]
pub fn clean(
    c: Counts,
    sections: &mut [u64],
    instructions: &mut [u64],
    numbers: &[i64],
    strings: &[u32],
    pool: &[u8],
    names: &[u16],
) -> Answer
    ensures { (answerTold result, tables sections.new instructions.new numbers.now strings.now pool.now names.now) ≡ Operations.clean (tables sections.old instructions.old numbers.now strings.now pool.now names.now) (countsTold c) }
{
    if !check(c, sections, instructions, numbers, strings, pool, names) {
        return Err(Refusal::BreaksRules);
    }
    if !all_fixed(&sections[..c.lines]) {
        return Err(Refusal::NeedsUnfixed);
    }
    if !jumps_fixed(&sections[..c.sections], &instructions[..c.instructions]) {
        return Err(Refusal::NeedsUnfixed);
    }
    let r = remove_unfixed_sections(sections, instructions, c.sections, c.instructions);
    Ok(c.with_code(r.sections, r.instructions))
}
