// Which sections are taken in: the references to each section counted in one pass over the words, as far as it matters. A section is taken in that is
// no line start and has one reference in all, which is another section's successor.
//
// Each function is shown equal to a list function of specs/Counting, for all words.
ghost use Rattle.std.specs.Prelude.{◌≡◌, ◌≤◌, length};
ghost use Rattle.std.specs.List.{list_all};
ghost use Rattle.rules.specs.Constants.{mostCount};
ghost use Rattle.rules.specs.Instr.{getSection};
ghost use Rattle.rules.specs.Word.{wordIns, wordRun};
ghost use Rattle.rules.specs.Tables.{successOf};
ghost use Rattle.words.specs.Told.{targetTold};
ghost use Rattle.combine.specs.Counting.{nextOf, once, more, countNext, countSection, countSections, countJumps, isHead};

use words::instr::{Instruction, Section};
use words::section::{SectionOrLine, SectionWord};

// No reference is counted; one, another section's successor; or more, where a jump, a section's own successor and the start of a line count as two.
const NONE: u8 = 0;

const ONE: u8 = 1;

const MORE: u8 = 2;

// The section that a section goes on to.
pub fn contiguous_to(section: SectionWord) -> Option<Section>
    ensures { targetTold result ≡ nextOf (successOf (wordRun section.0)) }
{
    match section.success() {
        SectionOrLine::Section(success) => Some(success),
        SectionOrLine::Unfixed | SectionOrLine::Line(_) => None,
    }
}

// A reference to what is no section changes nothing.
#[tactic(auto, using(crate::proofs::Walks::once_past))]
fn count_one(counts: &mut [u8], t: Section)
    ensures { counts.new ≡ once t.0 counts.old }
{
    let at = usize::from(t.0);
    if at < counts.len() {
        counts[at] = if counts[at] == NONE { ONE } else { MORE };
    }
}

#[tactic(auto, using(crate::proofs::Walks::more_past))]
fn count_more(counts: &mut [u8], t: Section)
    ensures { counts.new ≡ more t.0 counts.old }
{
    let at = usize::from(t.0);
    if at < counts.len() {
        counts[at] = MORE;
    }
}

// Section s goes on to `next`.
fn count_next(counts: &mut [u8], s: Section, next: Section)
    ensures { counts.new ≡ countNext s.0 next.0 counts.old }
{
    if next == s {
        count_more(counts, next);
    } else {
        count_one(counts, next);
    }
}

// What section s says.
#[tactic(auto, unfolding(crate::specs::Counting::countSection))]
fn count_section(counts: &mut [u8], s: Section, w: SectionWord)
    ensures { counts.new ≡ countSection s.0 w.0 counts.old }
{
    if w.line_start() {
        count_more(counts, s);
    }
    if let Some(next) = contiguous_to(w) {
        count_next(counts, s, next);
    }
}

#[tactic(auto, using(crate::proofs::Walks::sections_done, crate::proofs::Walks::sections_more))]
pub fn count_sections(counts: &mut [u8], sections: &[u64])
    requires { length sections.now ≤ mostCount }
    ensures { counts.new ≡ countSections 0 sections.now counts.old }
{
    for (s, &w) in sections.iter().enumerate() {
        count_section(counts, Section(s as u16), SectionWord(w));
    }
}

#[tactic(auto, using(crate::proofs::Walks::jumps_done, crate::proofs::Walks::jumps_more))]
pub fn count_jumps(counts: &mut [u8], instructions: &[u64])
    ensures { counts.new ≡ countJumps instructions.now counts.old }
{
    for &w in instructions {
        if let Some(t) = Instruction(w).get_section() {
            count_more(counts, t);
        }
    }
}

// Is a section that has this count a head?
pub fn is_head(count: u8) -> bool
    ensures { result ≡ isHead count }
{
    count != ONE
}

// Are all sections heads, by the counts so far?
pub fn all_heads(counts: &[u8]) -> bool
    ensures { result ≡ list_all isHead counts.now }
{
    counts.iter().all(|&count| is_head(count))
}
