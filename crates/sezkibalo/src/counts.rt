// The numbers that a caller lends: read as the counts of a machine, and written with an answer.
//
// Each function is shown to write the numbers at the start and to leave the rest. It asks that they have room, which the calls test first.
// C's numbers are u64 and Rust's counts usize, between which there is no `From`: so `as`, which is shown to lose nothing.
ghost use Rattle.std.specs.Prelude.{◌≡◌, ◌≤◌, length};
ghost use Rattle.tree.specs.Files.{sized};
ghost use Rattle.tables.specs.Lent.{countsTold, answerTold};
ghost use Rattle.sezkibalo.specs.Calls.{front, sizeRow, countsRow, rowCounts, answerRow};

use tables::answer::Answer;
use tables::counts::Counts;
use tree::Sizes;

// How many numbers size answers, and how many counts a machine has.
pub const SIX: usize = 6;

pub const EIGHT: usize = 8;

// The six sizes.
pub fn put_sizes(counts: &mut [u64], z: Sizes)
    requires { 6 ≤ length counts.old }
    ensures { counts.new ≡ front (sizeRow (sized z)) counts.old }
{
    counts[..SIX].copy_from_slice(&[
        z.lines,
        z.names,
        z.statements as u64,
        z.nodes as u64,
        z.strings as u64,
        z.characters as u64,
    ]);
}

// The eight counts.
fn put_counts(counts: &mut [u64], c: Counts)
    requires { 8 ≤ length counts.old }
    ensures { counts.new ≡ front (countsRow (countsTold c)) counts.old }
{
    counts[..EIGHT].copy_from_slice(&[
        c.lines as u64,
        c.sections as u64,
        c.instructions as u64,
        c.numbers as u64,
        c.strings as u64,
        c.characters as u64,
        c.values as u64,
        c.names as u64,
    ]);
}

pub fn read_counts(counts: &[u64]) -> Counts
    requires { 8 ≤ length counts.now }
    ensures { countsTold result ≡ rowCounts counts.now }
{
    Counts {
        lines: counts[0] as usize,
        sections: counts[1] as usize,
        instructions: counts[2] as usize,
        numbers: counts[3] as usize,
        strings: counts[4] as usize,
        characters: counts[5] as usize,
        values: counts[6] as usize,
        names: counts[7] as usize,
    }
}

// An answer as a number; its counts go to the lent numbers.
pub fn answered(counts: &mut [u64], a: Answer) -> u64
    requires { 8 ≤ length counts.old }
    ensures { (result, counts.new) ≡ answerRow (answerTold a) counts.old }
{
    match a {
        Ok(c) => {
            put_counts(counts, c);
            0
        }
        Err(refusal) => refusal.number(),
    }
}
