// Kept sections and their runs move down over the removed ones, and the words that are freed are zeroed. Asks that the runs cover the
// instructions. It reads at i and writes at a place that falls behind, so it goes by index; what is shown to fit 16 bits is narrowed by `as`.
ghost use Rattle.rules.specs.Constants.{mostCount};
ghost use Rattle.std.specs.Prelude.{◌≡◌, ◌≤◌, length};
ghost use Rattle.tables.specs.Runs.{total};
ghost use Rattle.clean.specs.Pass.{Kept, Packed};

use tables::shift::move_down;
use tables::word::is_fixed;
use words::section::SectionWord;

// How many sections and instructions are kept.
#[derive(Clone, Copy)]
pub struct Room {
    pub sections: usize,
    pub instructions: usize,
}

// Each run's first instruction is written anew.
fn pack_down(sections: &mut [u64], instructions: &mut [u64]) -> Room
    requires { (length instructions.old ≤ mostCount) × (total sections.old ≡ length instructions.old) }
    ensures { Kept sections.old instructions.old sections.new instructions.new result.sections result.instructions }
{
    let mut m: usize = 0;
    let mut a: usize = 0;
    let mut b: usize = 0;
    for i in 0..sections.len() {
        let w = SectionWord(sections[i]);
        let count = w.count();
        let size = usize::from(count);
        let from = a;
        a += size;
        if !is_fixed(w) {
            continue;
        }
        let v = SectionWord::pack(w.line_start(), w.success(), b as u16, count);
        sections[m] = v.0;
        move_down(instructions, from, b, size);
        m += 1;
        b += size;
    }
    Room {
        sections: m,
        instructions: b,
    }
}

pub fn pack(sections: &mut [u64], instructions: &mut [u64]) -> Room
    requires { (length instructions.old ≤ mostCount) × (total sections.old ≡ length instructions.old) }
    ensures { Packed sections.old instructions.old sections.new instructions.new result.sections result.instructions }
{
    let r = pack_down(sections, instructions);
    sections[r.sections..].fill(0);
    instructions[r.instructions..].fill(0);
    r
}
