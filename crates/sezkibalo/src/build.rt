// Lower and finish through the static library: a tree file is made into a machine in the lent tables. Each is shown to give what `buildCall`
// of specs/Calls says, and asks nothing.
ghost use Rattle.std.specs.Prelude.{◌≡◌};
ghost use Rattle.rules.specs.Operations as Operations;
ghost use Rattle.tables.specs.Lent.{tables};
ghost use Rattle.program.specs.Program.{optionsTold};
ghost use Rattle.sezkibalo.specs.Calls.{optionsOf, buildCall};

use crate::counts::{EIGHT, answered};
use params::options::CodegenOptions;
use params::refusal::Refusal;

// Bit 0 protects the local names, bit 1 the global ones; the other bits are ignored. They are C's form of the options, so no `From` reads them.
fn options_of(n: u64) -> CodegenOptions
    ensures { optionsTold result ≡ optionsOf n }
{
    CodegenOptions {
        protect_locals: n % 2 == 1,
        protect_globals: n / 2 % 2 == 1,
    }
}

// The two calls are alike but for the operation, as those in lib.rt.

// Lowers a tree file.
#[unsafe(no_mangle)]
#[tactic(auto, unfolding(crate::specs::Calls::changeCall))]
pub extern "C" fn sezkibalo_lower(
    tree: &[u8],
    options: u64,
    sections: &mut [u64],
    instrs: &mut [u64],
    numbers: &mut [i64],
    strings: &mut [u32],
    pool: &mut [u8],
    names: &mut [u16],
    counts: &mut [u64],
) -> u64
    ensures { (result, counts.new, tables sections.new instrs.new numbers.new strings.new pool.new names.new) ≡ buildCall Operations.lower tree.now options counts.old (tables sections.old instrs.old numbers.old strings.old pool.old names.old) }
{
    if counts.len() < EIGHT {
        return Refusal::NoRoom.number();
    }
    let o = options_of(options);
    let a = lower::lower(tree, o, sections, instrs, numbers, strings, pool, names);
    answered(counts, a)
}

// Lowers a tree file, and cleans and combines its machine.
#[unsafe(no_mangle)]
#[tactic(auto, unfolding(crate::specs::Calls::changeCall))]
pub extern "C" fn sezkibalo_finish(
    tree: &[u8],
    options: u64,
    sections: &mut [u64],
    instrs: &mut [u64],
    numbers: &mut [i64],
    strings: &mut [u32],
    pool: &mut [u8],
    names: &mut [u16],
    counts: &mut [u64],
) -> u64
    ensures { (result, counts.new, tables sections.new instrs.new numbers.new strings.new pool.new names.new) ≡ buildCall Operations.finish tree.now options counts.old (tables sections.old instrs.old numbers.old strings.old pool.old names.old) }
{
    if counts.len() < EIGHT {
        return Refusal::NoRoom.number();
    }
    let o = options_of(options);
    let a = finish::finish(tree, o, sections, instrs, numbers, strings, pool, names);
    answered(counts, a)
}
