// How many numbers and strings a replacement will add, by the answers of dup_replace_with. Asks nothing.
ghost use Rattle.std.specs.Prelude.{length};
ghost use Rattle.replace.specs.Pass.{Adds, AddsAll};

use words::instr::{Instruction, Replaced};

#[derive(Clone, Copy)]
pub struct Added {
    pub numbers: usize,
    pub strings: usize,
}

// What one instruction adds.
#[tactic(auto, unfolding(crate::specs::Pass::numberOf, crate::specs::Pass::stringOf))]
fn adds(w: Instruction) -> Added
    ensures { Adds w.0 result.numbers result.strings }
{
    let none = Added {
        numbers: 0,
        strings: 0,
    };
    match w.dup_replace_with() {
        Replaced::Stays | Replaced::Goes | Replaced::Turns(_) => none,
        Replaced::Number(_, _) => Added { numbers: 1, ..none },
        Replaced::Blank(_) => Added { strings: 1, ..none },
    }
}

// What the instructions add.
#[tactic(auto, using(crate::proofs::Adding::sums_at))]
pub fn additions(t: &[u64]) -> Added
    ensures { AddsAll t.now (length t.now) result.numbers result.strings }
{
    let mut numbers: usize = 0;
    let mut strings: usize = 0;
    for &w in t {
        let a = adds(Instruction(w));
        numbers += a.numbers;
        strings += a.strings;
    }
    Added { numbers, strings }
}
