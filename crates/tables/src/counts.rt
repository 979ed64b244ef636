// The counts of a machine in lent tables, shown to be checked as `countsFit` of `rules` says. Assumes nothing.
ghost use Rattle.std.specs.Prelude.{◌≡◌, ◌&&◌, leb};
ghost use Rattle.rules.specs.Constants.{mostCount};
ghost use Rattle.rules.specs.Tables.{countsFit};
ghost use Rattle.tables.specs.Lent.{countsTold, tables};

use params::limits::{MOST_COUNT, MOST_LINES};

// Lines, how much of each lent table is in use, and the value registers. Tests of a word take it beside the word: as methods they would read no shorter.
#[derive(Clone, Copy, PartialEq, Eq)]
pub struct Counts {
    pub lines: usize,
    pub sections: usize,
    pub instructions: usize,
    pub numbers: usize,
    pub strings: usize,
    pub characters: usize,
    pub values: usize,
    pub names: usize,
}

impl Counts {
    // The same with other sections and instructions.
    pub fn with_code(self, sections: usize, instructions: usize) -> Counts
        ensures { result ≡ record self { sections = sections; instructions = instructions } }
    {
        Counts {
            sections,
            instructions,
            ..self
        }
    }
}

// A count is at most 65,535 and no more than the lent table holds.
fn count_fits(n: usize, len: usize) -> bool
    ensures { result ≡ (leb n mostCount && leb n len) }
{
    (n <= MOST_COUNT) & (n <= len)
}

#[tactic(auto, unfolding(rules::specs::Tables::countsFit, rules::specs::Tables::countFits))]
pub fn counts_fit(
    c: Counts,
    sections: &[u64],
    instructions: &[u64],
    numbers: &[i64],
    strings: &[u32],
    pool: &[u8],
    names: &[u16],
) -> bool
    ensures { result ≡ countsFit (tables sections.now instructions.now numbers.now strings.now pool.now names.now) (countsTold c) }
{
    (0 < c.lines)
        & (c.lines <= MOST_LINES)
        & (c.lines <= c.sections)
        & (c.values <= MOST_COUNT)
        & count_fits(c.sections, sections.len())
        & count_fits(c.instructions, instructions.len())
        & count_fits(c.numbers, numbers.len())
        & count_fits(c.strings, strings.len())
        & count_fits(c.characters, pool.len())
        & count_fits(c.names, names.len())
}
