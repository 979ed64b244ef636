// replace_duplicates of yogi's IRMachine, in place: sections in order, kept instructions moved down, added numbers and strings behind the
// registers. Shown to leave the words of `replaceSections` of `rules` and zeros behind them. Asks that the words hold a machine and that
// there is room for what is added.
ghost use Rattle.replace.specs.Pass.{Ready, Rewrote};

use crate::instruction::At;
use crate::run::replace_run;
use tables::counts::Counts;
use tables::shift::zero;
use words::section::SectionWord;

// Each section's first instruction and count are written anew; what is done is handed back.
// The tables are lent whole, as C lends them: the contract says that what stands behind the counted words stays.
pub fn replace_duplicates(
    c: Counts,
    sections: &mut [u64],
    instructions: &mut [u64],
    numbers: &mut [i64],
    strings: &mut [u32],
) -> At
    requires { Ready sections.old instructions.old numbers.old strings.old c.sections c.instructions c.numbers c.strings c.characters }
    ensures { Rewrote sections.old instructions.old numbers.old strings.old sections.new instructions.new numbers.new strings.new c.sections c.instructions c.numbers c.strings c.characters result.instructions result.numbers result.strings }
{
    let n = c.sections;
    let e = c.instructions;
    let characters = c.characters as u16;
    let mut done = At {
        instructions: 0,
        numbers: c.numbers,
        strings: c.strings,
    };
    let mut from: usize = 0;
    for word in &mut sections[..n] {
        let w = SectionWord(*word);
        let to = from + usize::from(w.count());
        let first = done.instructions;
        done = replace_run(instructions, numbers, strings, done, characters, from, to);
        let count = done.instructions - first;
        let v = SectionWord::pack(w.line_start(), w.success(), first as u16, count as u16);
        *word = v.0;
        from = to;
    }
    zero(instructions, done.instructions, e);
    done
}
