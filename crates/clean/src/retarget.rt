// Successors and jumps get the new numbers of their sections. What the new numbers are is left to whoever renumbers (`Numbering`); cleaning reads them
// from the numbered words, and rewrites both tables in place. Assumes nothing.
ghost use Rattle.std.specs.Prelude.{◌≡◌, ℕ, map};
ghost use Rattle.rules.specs.Clean.{renNext};
ghost use Rattle.words.specs.Runs.{successTold};
ghost use Rattle.clean.specs.Pass.{firstOf, newNumber, withTarget, withJump};

use crate::number::NewNumbers;
use words::instr::{Instruction, Section};
use words::section::{SectionOrLine, SectionWord};

// New numbers of sections.
pub trait Numbering: Copy {
    ghost number_of: { Self → ℕ → ℕ };

    fn new_number(self, t: Section) -> Section
        ensures { result.0 ≡ number_of self t.0 };
}

pub fn new_success<N: Numbering>(numbering: N, success: SectionOrLine) -> SectionOrLine
    ensures { successTold result ≡ renNext (N.number_of numbering) (successTold success) }
{
    match success {
        SectionOrLine::Section(s) => SectionOrLine::Section(numbering.new_number(s)),
        unmoved => unmoved,
    }
}

#[tactic(auto, unfolding(crate::specs::Pass::withJump, rules::specs::Instr::getSection))]
pub fn with_jump<N: Numbering>(numbering: N, w: Instruction) -> Instruction
    ensures { result.0 ≡ withJump (N.number_of numbering) w.0 }
{
    match w.get_section() {
        Some(s) => w.aimed(numbering.new_number(s)),
        None => w.plain(),
    }
}

pub fn retarget_instructions(numbers: NewNumbers, instructions: &mut [u64])
    ensures { instructions.new ≡ map (withJump (newNumber (map firstOf numbers.entry.sections.now) numbers.entry.kept)) instructions.old }
{
    for w in instructions.iter_mut() {
        *w = with_jump(numbers, Instruction(*w)).0;
    }
}

#[tactic(auto, unfolding(crate::specs::Pass::withTarget))]
fn with_target(numbers: NewNumbers, w: SectionWord) -> SectionWord
    ensures { result.0 ≡ withTarget (newNumber (map firstOf numbers.entry.sections.now) numbers.entry.kept) w.0 }
{
    w.with_success(new_success(numbers, w.success()))
}

// By index: each turn reads the numbers of all the words.
pub fn retarget_sections(sections: &mut [u64], kept: u16)
    ensures { sections.new ≡ map (withTarget (newNumber (map firstOf sections.old) kept)) sections.old }
{
    for i in 0..sections.len() {
        let numbers = NewNumbers {
            sections: &sections[..],
            kept,
        };
        let v = with_target(numbers, SectionWord(sections[i]));
        sections[i] = v.0;
    }
}
