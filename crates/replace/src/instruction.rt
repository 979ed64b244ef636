// One instruction replaced: what becomes of it is written behind the instructions that are done, an added number or string behind the
// registers. Shown equal to `replaceIns` of `rules`. Asks that there is room. The three tables stay apart, here and in the files beside: a struct of
// them would say of each function that it keeps those that it does not touch. A number that is shown to fit 16 bits is narrowed by `as`.
ghost use Rattle.rules.specs.Constants.{mostCount};
ghost use Rattle.std.specs.Prelude.{◌<◌, length};
ghost use Rattle.replace.specs.Pass.{NumberAdded, BlankAdded, Spare, Stepped};

use words::instr::{Instruction, NumReg, Replaced, StrReg};
use words::number::Number;
use words::text::StringWord;

// How many instructions, numbers and strings are done.
#[derive(Clone, Copy)]
pub struct At {
    pub instructions: usize,
    pub numbers: usize,
    pub strings: usize,
}

// An added number, and its copy into a register.
#[tactic(auto, unfolding(rules::specs::Instr::kinds, rules::specs::Instr::table))]
fn add_number(
    instructions: &mut [u64],
    numbers: &mut [i64],
    at: At,
    number: Number,
    to: NumReg,
) -> At
    requires { (at.instructions < length instructions.old) × (at.numbers < length numbers.old) × (at.numbers < mostCount) }
    ensures { NumberAdded instructions.old numbers.old instructions.new numbers.new at.instructions at.numbers at.strings result.instructions result.numbers result.strings number.0 to.0 }
{
    let b = at.instructions;
    let n = at.numbers;
    let copy = Instruction::of_two(Instruction::COPY_NUM, NumReg(n as u16), to);
    instructions[b] = copy.0;
    numbers[n] = number.0;
    At {
        instructions: b + 1,
        numbers: n + 1,
        ..at
    }
}

// An added empty string, and its copy into a register. No one function with `add_number`: table, word, opcode and count are all others, and a
// trait for them would be longer than both.
#[tactic(auto, unfolding(rules::specs::Instr::kinds, rules::specs::Instr::table))]
fn add_blank(
    instructions: &mut [u64],
    strings: &mut [u32],
    at: At,
    characters: u16,
    to: StrReg,
) -> At
    requires { (at.instructions < length instructions.old) × (at.strings < length strings.old) × (at.strings < mostCount) }
    ensures { BlankAdded instructions.old strings.old instructions.new strings.new at.instructions at.numbers at.strings result.instructions result.numbers result.strings characters to.0 }
{
    let b = at.instructions;
    let s = at.strings;
    let copy = Instruction::of_two(Instruction::COPY_STR, StrReg(s as u16), to);
    let text = StringWord::pack(characters, 0);
    instructions[b] = copy.0;
    strings[s] = text.0;
    At {
        instructions: b + 1,
        strings: s + 1,
        ..at
    }
}

#[tactic(auto, unfolding(crate::specs::Pass::numberOf, crate::specs::Pass::stringOf))]
pub fn replace_instruction(
    instructions: &mut [u64],
    numbers: &mut [i64],
    strings: &mut [u32],
    at: At,
    characters: u16,
    w: Instruction,
) -> At
    requires { Spare instructions.old numbers.old strings.old at.instructions at.numbers at.strings w.0 }
    ensures { Stepped instructions.old numbers.old strings.old instructions.new numbers.new strings.new characters at.instructions at.numbers at.strings result.instructions result.numbers result.strings w.0 }
{
    let b = at.instructions;
    match w.dup_replace_with() {
        Replaced::Stays => {
            instructions[b] = w.plain().0;
            At {
                instructions: b + 1,
                ..at
            }
        }
        Replaced::Goes => at,
        Replaced::Turns(v) => {
            instructions[b] = v.0;
            At {
                instructions: b + 1,
                ..at
            }
        }
        Replaced::Number(z, to) => add_number(instructions, numbers, at, z, to),
        Replaced::Blank(to) => add_blank(instructions, strings, at, characters, to),
    }
}
