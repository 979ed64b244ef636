// The check of a machine's words: each word once, shown equal to `fits` of `rules`. Assumes nothing; the test of each table asks that the counted
// words lie inside it.
ghost use Rattle.rules.specs.Constants.{mostCount};
ghost use Rattle.std.specs.Prelude.{◌≡◌, ◌≤◌, length, take};
ghost use Rattle.rules.specs.Tables.{allb, insFits, runsFit, spanFits, nameFits, fits};
ghost use Rattle.tables.specs.Lent.{countsTold, tables};

use crate::counts::{Counts, counts_fit};
use crate::word::{instruction_fits, name_fits, section_fits, string_fits};
use words::instr::Instruction;
use words::section::SectionWord;
use words::text::StringWord;

fn instructions_fit(c: Counts, t: &[u64]) -> bool
    requires { c.instructions ≤ length t.now }
    ensures { result ≡ allb (insFits (countsTold c)) (take c.instructions t.now) }
{
    t[..c.instructions]
        .iter()
        .all(|&w| instruction_fits(c, Instruction(w)))
}

// Runs stand end to end from 0 and cover the counted instructions.
#[tactic(auto, using(crate::proofs::Walks::runs_done, crate::proofs::Walks::runs_at), unfolding(crate::specs::Runs::countOf))]
fn sections_fit(c: Counts, t: &[u64]) -> bool
    requires { (c.sections ≤ length t.now) × (c.sections ≤ mostCount) }
    ensures { result ≡ runsFit (countsTold c) 0 0 (take c.sections t.now) }
{
    let mut k: usize = 0;
    for (i, &word) in t[..c.sections].iter().enumerate() {
        let w = SectionWord(word);
        if !section_fits(c, i, k, w) {
            return false;
        }
        k += usize::from(w.count());
    }
    k == c.instructions
}

fn strings_fit(c: Counts, t: &[u32]) -> bool
    requires { c.strings ≤ length t.now }
    ensures { result ≡ allb (spanFits (countsTold c)) (take c.strings t.now) }
{
    t[..c.strings]
        .iter()
        .all(|&w| string_fits(c, StringWord(w)))
}

fn names_fit(c: Counts, t: &[u16]) -> bool
    requires { c.names ≤ length t.now }
    ensures { result ≡ allb (nameFits (countsTold c)) (take c.names t.now) }
{
    t[..c.names].iter().all(|&n| name_fits(c, n))
}

// Do the words keep the rules? Six slices, and no struct of them: a caller lends some by `&mut` and would lay them into one for this call alone.
#[tactic(auto, using(crate::proofs::Sound::counted), unfolding(rules::specs::Tables::fits, rules::specs::Tables::wordsFit))]
pub fn check(
    c: Counts,
    sections: &[u64],
    instructions: &[u64],
    numbers: &[i64],
    strings: &[u32],
    pool: &[u8],
    names: &[u16],
) -> bool
    ensures { result ≡ fits (tables sections.now instructions.now numbers.now strings.now pool.now names.now) (countsTold c) }
{
    if !counts_fit(c, sections, instructions, numbers, strings, pool, names) {
        return false;
    }
    instructions_fit(c, instructions)
        & sections_fit(c, sections)
        & strings_fit(c, strings)
        & names_fit(c, names)
}
