// Finishing: a tree file is lowered, and its machine cleaned and combined. The answer and every lent word afterwards are shown equal to
// `finish` of `rules`; specs/Preservation says of these words that they preserve the tree's reading. Assumes nothing.
//
// Nothing is checked between the steps: that clean and combine would not refuse what they are given is proved.
#![tactic(auto)]

pub mod passes;

ghost use Rattle.std.specs.Prelude.{◌≡◌};
ghost use Rattle.rules.specs.Operations as Operations;
ghost use Rattle.tables.specs.Lent.{tables, answerTold};
ghost use Rattle.program.specs.Program.{optionsTold};

use params::options::CodegenOptions;
use passes::clean_and_combine;
use tables::answer::Answer;

pub fn finish(
    tree: &[u8],
    options: CodegenOptions,
    sections: &mut [u64],
    instructions: &mut [u64],
    numbers: &mut [i64],
    strings: &mut [u32],
    pool: &mut [u8],
    names: &mut [u16],
) -> Answer
    ensures { (answerTold result, tables sections.new instructions.new numbers.new strings.new pool.new names.new) ≡ Operations.finish (optionsTold options) tree.now (tables sections.old instructions.old numbers.old strings.old pool.old names.old) }
{
    let c = lower::lower(
        tree,
        options,
        sections,
        instructions,
        numbers,
        strings,
        pool,
        names,
    )?;
    let r = clean_and_combine(sections, instructions, c.sections, c.instructions);
    Ok(c.with_code(r.sections, r.instructions))
}
