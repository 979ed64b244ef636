// The test of combine behind those of words and of fixed sections: 15 where a successor that is no line start lies below its section.
//
// It is shown equal to the test of `rules` on what the words hold, for all words.
ghost use Rattle.std.specs.Prelude.{◌≡◌, length};
ghost use Rattle.combine.specs.Tests.{wordAhead, wordsAhead};

use crate::references::contiguous_to;
use words::section::SectionWord;

// Is the successor of w, which is section i, a line start, or does it not lie below it?
fn is_ahead(sections: &[u64], i: usize, w: SectionWord) -> bool
    ensures { result ≡ wordAhead sections.now (length sections.now) i w.0 }
{
    let Some(next) = contiguous_to(w) else {
        return true;
    };
    let at = usize::from(next.0);
    match sections.get(at) {
        Some(&word) => SectionWord(word).line_start() | (i <= at),
        None => true,
    }
}

// And so of each section?
#[tactic(auto, using(crate::proofs::Walks::ahead_done, crate::proofs::Walks::ahead_more))]
pub fn all_ahead(sections: &[u64]) -> bool
    ensures { result ≡ wordsAhead sections.now (length sections.now) 0 sections.now }
{
    for (i, &w) in sections.iter().enumerate() {
        if !is_ahead(sections, i, SectionWord(w)) {
            return false;
        }
    }
    true
}
