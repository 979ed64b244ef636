// Chains of sections: a head and the sections that it takes in, one behind the other. Their instructions are stored from a copy with new targets, and
// the head's word is made of its own and of the last section's.
//
// Each function on one section is shown for all words; a chain asks that the words of its sections are those of a machine.
ghost use Rattle.std.specs.Prelude.{◌≡◌, List, ◌≤◌, ◌<◌, ◌+◌, length, get_or};
ghost use Rattle.rules.specs.Constants.{mostCount};
ghost use Rattle.rules.specs.Word.{wordRun};
ghost use Rattle.rules.specs.Machine.{SectionCode};
ghost use Rattle.rules.specs.Tables.{successOf};
ghost use Rattle.words.specs.Told.{targetTold};
ghost use Rattle.gather.specs.Gather.{chainOf, takes};
ghost use Rattle.combine.specs.Counting.{headBy};
ghost use Rattle.combine.specs.Numbers.{numberBy};
ghost use Rattle.combine.specs.Chains.{CodeInside, newCode, codeWords, headWord, ChainStands};
ghost use Rattle.combine.specs.Stores.{HasRoom, Stores};

use crate::numbers::NewNumbers;
use crate::references::{contiguous_to, is_head};
use crate::store::Places;
use clean::retarget::{new_success, with_jump};
use words::instr::{Instruction, Section};
use words::section::SectionWord;

// Section words, the copy of the instruction words, the counts of references, and the new numbers.
#[derive(Clone, Copy)]
pub struct Chains<'a> {
    pub sections: &'a [u64],
    pub code: &'a [u64],
    pub counts: &'a [u8],
    pub numbers: NewNumbers<'a>,
}

impl Chains<'_> {
    // The section that u takes in: its successor, if that is taken in.
    fn link(self, u: usize) -> Option<Section>
        requires { u < length self.sections.now }
        ensures { targetTold result ≡ takes (headBy self.entry.counts.now) (successOf (wordRun (get_or self.entry.sections.now u 0))) }
    {
        let next = contiguous_to(SectionWord(self.sections[u]))?;
        match self.counts.get(usize::from(next.0)) {
            Some(&count) if !is_head(count) => Some(next),
            _ => None,
        }
    }

    // The instructions of section u stored.
    fn store_code(self, places: &mut Places, u: usize)
        requires { CodeInside self u × HasRoom places.old (newCode self u) }
        ensures { Stores places.old places.new (newCode self.entry u) }
    {
        let w = SectionWord(self.sections[u]);
        let first = usize::from(w.first());
        for &word in &self.code[first..first + usize::from(w.count())] {
            places.store(with_jump(self.numbers, Instruction(word)));
        }
    }

    // The instructions of head t's chain stored; the last section of the chain is handed back.
    pub fn store_chain(self, places: &mut Places, t: usize) -> usize
        ghost m: { List SectionCode }
        requires { ChainStands m self t × HasRoom places.old (codeWords m (chainOf m t)) }
        ensures { Stores places.old places.new (codeWords m (chainOf m t)) × (result < length self.entry.sections.now) × (successOf (wordRun (get_or self.entry.sections.now result 0)) ≡ (chainOf m t).success) }
    {
        self.store_code(places, t);
        let mut u = t;
        while let Some(v) = self.link(u) {
            u = usize::from(v.0);
            self.store_code(places, u);
        }
        u
    }

    // The word of a chain that begins with section t, ends with section `last`, and has its instructions at first..end.
    #[tactic(auto, unfolding(crate::specs::Chains::headWord, rules::specs::Tables::successOf, rules::specs::Bits::isOne))]
    pub fn head_word(self, t: usize, last: usize, first: usize, end: usize) -> SectionWord
        requires { (t < length self.sections.now) × (last < length self.sections.now) × (first ≤ end) × (end ≤ mostCount) }
        ensures { result.0 ≡ headWord (numberBy self.entry.numbers.numbers.now self.entry.numbers.heads) (get_or self.entry.sections.now t 0) (get_or self.entry.sections.now last 0) first end }
    {
        let success = new_success(self.numbers, SectionWord(self.sections[last]).success());
        SectionWord::pack(
            SectionWord(self.sections[t]).line_start(),
            success,
            first as u16,
            (end - first) as u16,
        )
    }
}
