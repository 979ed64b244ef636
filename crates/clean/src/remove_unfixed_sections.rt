// remove_unfixed_sections of yogi's optimize, in place and without scratch, shown to leave the words of `cleanSections` of `rules` and
// zeros behind them. Asks that the words hold a machine: counts that keep the rules, runs that cover the counted instructions. Each step asks it by
// clauses and no struct holds it, since the words are written meanwhile.
ghost use Rattle.rules.specs.Constants.{mostCount};
ghost use Rattle.std.specs.Prelude.{◌≡◌, ◌≤◌, length, take};
ghost use Rattle.tables.specs.Runs.{total};
ghost use Rattle.clean.specs.Pass.{Renumbered, Removed, Cleaned};

use crate::number::{NewNumbers, number};
use crate::pack::{Room, pack};
use crate::retarget::{retarget_instructions, retarget_sections};

fn renumber(sections: &mut [u64], instructions: &mut [u64])
    requires { length sections.old ≤ mostCount }
    ensures { Renumbered sections.old instructions.old sections.new instructions.new }
{
    let kept = number(sections);
    let numbers = NewNumbers {
        sections: &sections[..],
        kept,
    };
    retarget_instructions(numbers, instructions);
    retarget_sections(sections, kept);
}

fn remove(sections: &mut [u64], instructions: &mut [u64]) -> Room
    requires { (length sections.old ≤ mostCount) × (length instructions.old ≤ mostCount) × (total sections.old ≡ length instructions.old) }
    ensures { Removed sections.old instructions.old sections.new instructions.new result.sections result.instructions }
{
    renumber(sections, instructions);
    pack(sections, instructions)
}

// n sections, e instructions; what is left of them is handed back.
// The tables are lent whole, as C lends them: the contract says that what stands behind the counted words stays.
pub fn remove_unfixed_sections(
    sections: &mut [u64],
    instructions: &mut [u64],
    n: usize,
    e: usize,
) -> Room
    requires { (n ≤ length sections.old) × (n ≤ mostCount) × (e ≤ length instructions.old) × (e ≤ mostCount) × (total (take n sections.old) ≡ e) }
    ensures { Cleaned sections.old instructions.old sections.new instructions.new n e result.sections result.instructions }
{
    remove(&mut sections[..n], &mut instructions[..e])
}
