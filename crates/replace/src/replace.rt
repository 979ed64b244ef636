// Replacing duplicate operands in a machine in lent tables: 12 where its words break the rules, then 11 where there is no slot for an added
// number or string, or its count would pass 65,535. The additions are known before the first store. The answer and every lent word
// afterwards are shown equal to `replace` of `rules`. Assumes nothing.
ghost use Rattle.std.specs.Prelude.{◌≡◌, ◌&&◌, leb};
ghost use Rattle.rules.specs.Constants.{mostCount};
ghost use Rattle.rules.specs.Operations as Operations;
ghost use Rattle.tables.specs.Lent.{countsTold, tables, answerTold};

use crate::additions::additions;
use crate::replace_duplicates::replace_duplicates;
use params::limits::MOST_COUNT;
use params::refusal::Refusal;
use tables::answer::Answer;
use tables::check::check;
use tables::counts::Counts;

// Is there a slot for each of n words, and is n no more than a count may be? As tables test a count, in the order in which `replace` of `rules` asks.
fn slots(n: usize, len: usize) -> bool
    ensures { result ≡ (leb n len && leb n mostCount) }
{
    (n <= len) & (n <= MOST_COUNT)
}

#[tactic(auto, using(tables::proofs::Sound::counts_kept))]
pub fn replace(
    c: Counts,
    sections: &mut [u64],
    instructions: &mut [u64],
    numbers: &mut [i64],
    strings: &mut [u32],
    pool: &[u8],
    names: &[u16],
) -> Answer
    ensures { (answerTold result, tables sections.new instructions.new numbers.new strings.new pool.now names.now) ≡ Operations.replace (tables sections.old instructions.old numbers.old strings.old pool.now names.now) (countsTold c) }
{
    if !check(c, sections, instructions, numbers, strings, pool, names) {
        return Err(Refusal::BreaksRules);
    }
    let added = additions(&instructions[..c.instructions]);
    let fits = slots(c.numbers + added.numbers, numbers.len())
        & slots(c.strings + added.strings, strings.len());
    if !fits {
        return Err(Refusal::NoRoom);
    }
    let done = replace_duplicates(c, sections, instructions, numbers, strings);
    Ok(Counts {
        instructions: done.instructions,
        numbers: done.numbers,
        strings: done.strings,
        ..c
    })
}
