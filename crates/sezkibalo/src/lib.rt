// The static library for Rust and C: each operation with plain numbers and slices, thin over the proved calls.
//
// Each function is shown to give what its definition in specs/Calls says, in which the definitions of `rules` are the answer and every lent word.
// None asks anything of its caller.
#![tactic(auto)]

pub mod build;
pub mod counts;

ghost use Rattle.rules.specs.Constants.{mostChars};
ghost use Rattle.std.specs.Prelude.{◌≡◌, ◌≤◌};
ghost use Rattle.rules.specs.Operations as Operations;
ghost use Rattle.words.specs.Runs.{span};
ghost use Rattle.tables.specs.Lent.{tables};
ghost use Rattle.sezkibalo.specs.Calls.{sizeCall, changeCall};

use counts::{EIGHT, SIX, answered, put_sizes, read_counts};
use params::limits::MOST_COUNT;
use params::refusal::Refusal;
use tables::text::text_place;
use words::instr::StrReg;

// Registers are below this.
const REGISTERS: u64 = MOST_COUNT as u64;

// The largest start that a spot can say.
const MOST_START: usize = 4294967295;

// A start and a length in one number.
fn spot(start: usize, length: usize) -> u64
    requires { length ≤ mostChars }
    ensures { result ≡ Operations.spotOf (span start length) }
{
    start.min(MOST_START) as u64 * 4294967296 + length as u64
}

// Lines, names, statements, nodes, strings and characters of a tree file; or the number that refuses it.
#[unsafe(no_mangle)]
#[tactic(auto, unfolding(crate::specs::Calls::sizeCall))]
pub extern "C" fn sezkibalo_size(tree: &[u8], counts: &mut [u64]) -> u64
    ensures { (result, counts.new) ≡ sizeCall tree.now counts.old }
{
    if counts.len() < SIX {
        return Refusal::NoRoom.number();
    }
    match tree::size(tree) {
        Ok(z) => {
            put_sizes(counts, z);
            0
        }
        Err(refusal) => refusal.number(),
    }
}

// The three calls on a machine, and lower and finish, are alike but for the operation. Each is a name of its own to C, and one function of them would
// take the operation with all six tables as a closure, which is longer than a body here.

// Replaces the duplicate operands of a machine.
#[unsafe(no_mangle)]
#[tactic(auto, unfolding(crate::specs::Calls::changeCall))]
pub extern "C" fn sezkibalo_replace(
    counts: &mut [u64],
    sections: &mut [u64],
    instructions: &mut [u64],
    numbers: &mut [i64],
    strings: &mut [u32],
    pool: &[u8],
    names: &[u16],
) -> u64
    ensures { (result, counts.new, tables sections.new instructions.new numbers.new strings.new pool.now names.now) ≡ changeCall Operations.replace counts.old (tables sections.old instructions.old numbers.old strings.old pool.now names.now) }
{
    if counts.len() < EIGHT {
        return Refusal::NoRoom.number();
    }
    let c = read_counts(counts);
    let a = replace::replace::replace(c, sections, instructions, numbers, strings, pool, names);
    answered(counts, a)
}

// Removes the unfixed sections of a machine.
#[unsafe(no_mangle)]
#[tactic(auto, unfolding(crate::specs::Calls::changeCall))]
pub extern "C" fn sezkibalo_clean(
    counts: &mut [u64],
    sections: &mut [u64],
    instructions: &mut [u64],
    numbers: &mut [i64],
    strings: &mut [u32],
    pool: &[u8],
    names: &[u16],
) -> u64
    ensures { (result, counts.new, tables sections.new instructions.new numbers.new strings.new pool.now names.now) ≡ changeCall Operations.clean counts.old (tables sections.old instructions.old numbers.old strings.old pool.now names.now) }
{
    if counts.len() < EIGHT {
        return Refusal::NoRoom.number();
    }
    let c = read_counts(counts);
    let a = clean::clean::clean(c, sections, instructions, numbers, strings, pool, names);
    answered(counts, a)
}

// Joins the sections of a machine until no pair is left.
#[unsafe(no_mangle)]
#[tactic(auto, unfolding(crate::specs::Calls::changeCall))]
pub extern "C" fn sezkibalo_combine(
    counts: &mut [u64],
    sections: &mut [u64],
    instructions: &mut [u64],
    numbers: &mut [i64],
    strings: &mut [u32],
    pool: &[u8],
    names: &[u16],
) -> u64
    ensures { (result, counts.new, tables sections.new instructions.new numbers.new strings.new pool.now names.now) ≡ changeCall Operations.combine counts.old (tables sections.old instructions.old numbers.old strings.old pool.now names.now) }
{
    if counts.len() < EIGHT {
        return Refusal::NoRoom.number();
    }
    let c = read_counts(counts);
    let a = combine::combine(c, sections, instructions, numbers, strings, pool, names);
    answered(counts, a)
}

// The place of a string register's text in the pool, start × 2^32 + length; empty, at the pool's end, where register or word is bad.
#[unsafe(no_mangle)]
#[tactic(auto, unfolding(rules::specs::Operations::textSpot))]
pub extern "C" fn sezkibalo_text(strings: &[u32], pool: &[u8], register: u64) -> u64
    ensures { result ≡ Operations.textSpot strings.now pool.now register }
{
    if register >= REGISTERS {
        return spot(pool.len(), 0);
    }
    let p = text_place(strings, pool, StrReg(register as u16));
    spot(p.start, p.length)
}
