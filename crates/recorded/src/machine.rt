// A recorded machine (oracle/README.md, "A machine on one line"): its counts, its tables read into lent ones, and both compared.
//
// Each function is shown safe and ending, on any bytes.
ghost use Rattle.std.specs.Prelude.{◌≡◌, ◌≤◌, length, take};

use crate::rows::{Word, read, spells, spells_bytes};
use crate::{bytes, decimal, field};
use tables::counts::Counts;

// The parts of the line: the counts, then the tables.
const COUNTS: usize = 0;

pub const SECTIONS: usize = 1;

pub const INSTRUCTIONS: usize = 2;

pub const NUMBERS: usize = 3;

pub const STRINGS: usize = 4;

const POOL: usize = 5;

pub const NAMES: usize = 6;

// A machine's tables.
#[derive(Clone, Copy)]
pub struct Tables<'a> {
    pub sections: &'a [u64],
    pub instructions: &'a [u64],
    pub numbers: &'a [i64],
    pub strings: &'a [u32],
    pub pool: &'a [u8],
    pub names: &'a [u16],
}

impl<'a> Tables<'a> {
    // As many words of each as are counted, if there are as many.
    fn counted(self, c: Counts) -> Option<Tables<'a>> {
        Some(Tables {
            sections: self.sections.get(..c.sections)?,
            instructions: self.instructions.get(..c.instructions)?,
            numbers: self.numbers.get(..c.numbers)?,
            strings: self.strings.get(..c.strings)?,
            pool: self.pool.get(..c.characters)?,
            names: self.names.get(..c.names)?,
        })
    }
}

fn table(text: &[u8], k: usize) -> &[u8] {
    field(text, k, b'|')
}

// A number of a row.
fn count(row: &[u8], k: usize) -> usize {
    decimal(field(row, k, b' ')) as usize
}

fn row_counts(row: &[u8]) -> Counts {
    Counts {
        lines: count(row, 0),
        sections: count(row, 1),
        instructions: count(row, 2),
        numbers: count(row, 3),
        strings: count(row, 4),
        characters: count(row, 5),
        values: count(row, 6),
        names: count(row, 7),
    }
}

// The eight counts of a machine.
pub fn counts(text: &[u8]) -> Counts {
    row_counts(table(text, COUNTS))
}

// A table of sections, instructions, numbers, strings or names into a lent one; how many words there are.
pub fn words_of<W: Word>(text: &[u8], k: usize, out: &mut [W]) -> usize
    ensures { (result ≤ length out.new) × (result ≡ length (take result out.new)) }
{
    read(table(text, k), out)
}

pub fn pool_of(text: &[u8], out: &mut [u8]) -> usize
    ensures { (result ≤ length out.new) × (result ≡ length (take result out.new)) }
{
    bytes(table(text, POOL), out)
}

// Are these just the words of the recorded tables?
pub fn has_tables(text: &[u8], t: Tables<'_>) -> bool {
    spells(table(text, SECTIONS), t.sections)
        & spells(table(text, INSTRUCTIONS), t.instructions)
        & spells(table(text, NUMBERS), t.numbers)
        & spells(table(text, STRINGS), t.strings)
        & spells_bytes(table(text, POOL), t.pool)
        & spells(table(text, NAMES), t.names)
}

// Are these the recorded counts, and the words that they count?
pub fn is_machine(text: &[u8], c: Counts, t: Tables<'_>) -> bool {
    match t.counted(c) {
        Some(counted) => (counts(text) == c) & has_tables(text, counted),
        None => false,
    }
}

// Is it `R` and this number?
pub fn refused(row: &[u8], n: u64) -> bool {
    match row {
        [b'R', _, number @ ..] => !number.is_empty() & (decimal(number) == n),
        _ => false,
    }
}
