// The instructions of one section replaced in place, replace_duplicates of yogi's SectionCode. Shown equal to `replaceCode` of `rules`.
// Asks that there is room. It reads at i and writes behind what is done, so it goes by index.
ghost use Rattle.replace.specs.Pass.{Open, Ran};

use crate::instruction::{At, replace_instruction};
use words::instr::Instruction;

// The run from..to.
#[tactic(auto, using(crate::proofs::Runs::run_begins, crate::proofs::Runs::run_ends))]
pub fn replace_run(
    instructions: &mut [u64],
    numbers: &mut [i64],
    strings: &mut [u32],
    at: At,
    characters: u16,
    from: usize,
    to: usize,
) -> At
    requires { Open instructions.old numbers.old strings.old at.instructions at.numbers at.strings from to }
    ensures { Ran instructions.old numbers.old strings.old instructions.new numbers.new strings.new characters at.instructions at.numbers at.strings result.instructions result.numbers result.strings from to }
{
    let mut done = at;
    for i in from..to {
        let w = Instruction(instructions[i]);
        done = replace_instruction(instructions, numbers, strings, done, characters, w);
    }
    done
}
