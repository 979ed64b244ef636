// A tree file lowered into lent tables: refused as size refuses it, then 11 where a lent table is shorter than its estimate; zeros from the
// final counts up to the estimates, and nothing beyond. The answer and every lent word afterwards are shown equal to `lower` of `rules`.
// Assumes nothing; the steps ask for the tree in tables and for room.
#![tactic(auto)]

ghost use Rattle.std.specs.Prelude.{◌≡◌, ◌≤◌, length};
ghost use Rattle.rules.specs.Bits.{ok};
ghost use Rattle.rules.specs.Constants.{mostNodes};
ghost use Rattle.rules.specs.Operations as Operations;
ghost use Rattle.tables.specs.Lent.{countsTold, tables, answerTold};
ghost use Rattle.program.specs.Program.{optionsTold};
ghost use Rattle.nodes.specs.Builds.{mostNodesOf};
ghost use Rattle.lower.specs.Lower.{Roomy};

use crate::room::{estimate, holds};
use params::limits::{MOST_LINES, MOST_NODES};
use params::options::CodegenOptions;
use params::refusal::Refusal;
use program::program::codegen_from_program;
use replace::replace_duplicates::replace_duplicates;
use tables::answer::Answer;
use tables::counts::Counts;
use tables::shift::zero;
use tree::{SMALL_BYTES, SMALL_NODES, read_tree};

pub mod room;

// The machine with its duplicates replaced, and zeros up to the estimates: strings, characters and names are as many as estimated. Of the
// instructions lowering is lent what it may need.
#[tactic(auto, using(crate::proofs::Steps::rooms))]
fn lower_tree(
    s: &[u8],
    nodes: &[u64],
    lines: &[u64],
    options: CodegenOptions,
    room: Counts,
    sections: &mut [u64],
    instructions: &mut [u64],
    numbers: &mut [i64],
    strings: &mut [u32],
    pool: &mut [u8],
    names: &mut [u16],
) -> Counts
    requires { Roomy s.now nodes.now lines.now (countsTold room) (tables sections.old instructions.old numbers.old strings.old pool.old names.old) }
    ensures { (ok (countsTold result), tables sections.new instructions.new numbers.new strings.new pool.new names.new) ≡ Operations.lower (optionsTold options) s.now (tables sections.old instructions.old numbers.old strings.old pool.old names.old) }
{
    let most = room.instructions;
    let c = codegen_from_program(
        s,
        nodes,
        lines,
        sections,
        &mut instructions[..most],
        numbers,
        strings,
        pool,
        names,
        room.lines,
        room.names,
        options,
    );
    let done = replace_duplicates(c, sections, instructions, numbers, strings);
    zero(sections, c.sections, room.sections);
    zero(instructions, c.instructions, room.instructions);
    zero(numbers, c.numbers, room.numbers);
    Counts {
        instructions: done.instructions,
        numbers: done.numbers,
        strings: done.strings,
        ..c
    }
}

// The tree is read into a lent node table. The test of room comes before any lent word is written.
#[tactic(auto, using(crate::proofs::Steps::tree_ok, crate::proofs::Steps::tree_no, crate::proofs::Steps::limited, crate::proofs::Steps::given, crate::proofs::Steps::lower_no))]
fn lower_by(
    s: &[u8],
    nodes: &mut [u64],
    options: CodegenOptions,
    sections: &mut [u64],
    instructions: &mut [u64],
    numbers: &mut [i64],
    strings: &mut [u32],
    pool: &mut [u8],
    names: &mut [u16],
) -> Answer
    requires { mostNodesOf (length s.now) ≤ length nodes.old }
    ensures { (answerTold result, tables sections.new instructions.new numbers.new strings.new pool.new names.new) ≡ Operations.lower (optionsTold options) s.now (tables sections.old instructions.old numbers.old strings.old pool.old names.old) }
{
    let mut lines = [0u64; MOST_LINES];
    let size = read_tree(s, nodes, &mut lines)?;
    let room = estimate(size);
    if !holds(room, sections, instructions, numbers, strings, pool, names) {
        return Err(Refusal::NoRoom);
    }
    Ok(lower_tree(
        s,
        nodes,
        &lines,
        options,
        room,
        sections,
        instructions,
        numbers,
        strings,
        pool,
        names,
    ))
}

// With a node table of its own, of N words.
fn lower_with<const N: usize>(
    tree: &[u8],
    options: CodegenOptions,
    sections: &mut [u64],
    instructions: &mut [u64],
    numbers: &mut [i64],
    strings: &mut [u32],
    pool: &mut [u8],
    names: &mut [u16],
) -> Answer
    requires { (mostNodesOf (length tree.now) ≤ N) × (N ≤ mostNodes) }
    ensures { (answerTold result, tables sections.new instructions.new numbers.new strings.new pool.new names.new) ≡ Operations.lower (optionsTold options) tree.now (tables sections.old instructions.old numbers.old strings.old pool.old names.old) }
{
    let mut nodes = [0u64; N];
    lower_by(
        tree,
        &mut nodes,
        options,
        sections,
        instructions,
        numbers,
        strings,
        pool,
        names,
    )
}

pub fn lower(
    tree: &[u8],
    options: CodegenOptions,
    sections: &mut [u64],
    instructions: &mut [u64],
    numbers: &mut [i64],
    strings: &mut [u32],
    pool: &mut [u8],
    names: &mut [u16],
) -> Answer
    ensures { (answerTold result, tables sections.new instructions.new numbers.new strings.new pool.new names.new) ≡ Operations.lower (optionsTold options) tree.now (tables sections.old instructions.old numbers.old strings.old pool.old names.old) }
{
    if tree.len() <= SMALL_BYTES {
        lower_with::<SMALL_NODES>(
            tree,
            options,
            sections,
            instructions,
            numbers,
            strings,
            pool,
            names,
        )
    } else {
        lower_with::<MOST_NODES>(
            tree,
            options,
            sections,
            instructions,
            numbers,
            strings,
            pool,
            names,
        )
    }
}
