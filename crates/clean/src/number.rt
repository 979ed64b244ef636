// The new numbers of sections: while cleaning runs, the first-instruction field of each section's word carries the number of sections kept
// up to and including it. Asks that there are at most 65,535.
ghost use Rattle.rules.specs.Constants.{mostCount};
ghost use Rattle.std.specs.Prelude.{◌≡◌, map, ◌≤◌, ◌<◌, ◌+◌, pred, length};
ghost use Rattle.clean.specs.Pass.{bump, newNumber, firstOf, Numbered};

use crate::retarget::Numbering;
use tables::word::is_fixed;
use words::instr::Section;
use words::section::SectionWord;

// The sections kept up to and including w, k before it.
#[tactic(auto, unfolding(crate::specs::Pass::bump, tables::specs::Runs::fixedWord))]
fn bump(k: u16, w: SectionWord) -> u16
    requires { k < mostCount }
    ensures { (result ≡ bump k w.0) × (result ≤ k + 1) }
{
    if is_fixed(w) { k + 1 } else { k }
}

// Each word numbered; all that are kept are handed back.
pub fn number(sections: &mut [u64]) -> u16
    requires { length sections.old ≤ mostCount }
    ensures { Numbered sections.old sections.new result }
{
    let mut k: u16 = 0;
    for word in sections.iter_mut() {
        let w = SectionWord(*word);
        k = bump(k, w);
        *word = w.with_first(k).0;
    }
    k
}

// The numbered words, and how many are kept.
#[derive(Clone, Copy)]
pub struct NewNumbers<'a> {
    pub sections: &'a [u64],
    pub kept: u16,
}

impl Numbering for NewNumbers<'_> {
    ghost number_of = { λ n. newNumber (map firstOf n.sections.now) n.kept };

    // From the numbered words; past them, the last one's.
    #[tactic(auto, using(crate::proofs::Single::new_number_is))]
    fn new_number(self, t: Section) -> Section {
        let through = match self.sections.get(usize::from(t.0)) {
            Some(&w) => SectionWord(w).first(),
            None => self.kept,
        };
        Section(through.saturating_sub(1))
    }
}
