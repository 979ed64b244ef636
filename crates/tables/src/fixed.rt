// The test that sections are fixed: it is asked of the lines before cleaning, of all sections before combining.
ghost use Rattle.std.specs.Prelude.{◌≡◌};
ghost use Rattle.rules.specs.Tables.{allb};
ghost use Rattle.tables.specs.Runs.{fixedWord};

use crate::word::is_fixed;
use words::section::SectionWord;

// Is every one of the sections fixed?
pub fn all_fixed(sections: &[u64]) -> bool
    ensures { result ≡ allb fixedWord sections.now }
{
    sections.iter().all(|&w| is_fixed(SectionWord(w)))
}
