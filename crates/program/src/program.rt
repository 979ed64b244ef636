// A whole tree: its machine before replacement, in the lent tables.
//
// `codegen_from_program` is shown to leave the words of `assemble` of `rules` in front of what was there (`Laid`). A caller owes the tables of
// nodes and lines, and room (`TreeReady`).
ghost use Rattle.std.specs.Prelude.{◌≡◌, ℕ, length};
ghost use Rattle.rules.specs.Tree.{Tree};
ghost use Rattle.rules.specs.Lowered.{assemble};
ghost use Rattle.tree.specs.Files.{HoldsTree, Placed};
ghost use Rattle.tables.specs.Lent.{countsTold, tables as tablesS};
ghost use Rattle.program.specs.Program.{optionsTold, TreeReady, Laid};

use crate::lines::{codegen_from_lines, head_costs};
use crate::name_words::{clear_names, protect_names};
use codegen::state::Counters;
use line::line::LineEnd;
use params::options::CodegenOptions;
use tables::counts::Counts;
use words::instr::Section;

// The first sections of all lines come first, so their instructions are counted before.
pub fn codegen_from_program(
    s: &[u8],
    nodes: &[u64],
    lines: &[u64],
    sections: &mut [u64],
    instrs: &mut [u64],
    numbers: &mut [i64],
    strings: &mut [u32],
    pool: &mut [u8],
    names: &mut [u16],
    line_count: usize,
    name_count: usize,
    options: CodegenOptions,
) -> Counts
    requires { TreeReady s.now nodes.now lines.now line_count name_count (length instrs.old) (length numbers.old) (length strings.old) (length pool.old) (length names.old) (length sections.old) }
    ensures { (x : Tree) (z : ℕ) → HoldsTree s.now nodes.now lines.now x z → Placed s.now x.names → length x.lines ≡ line_count → length x.names ≡ name_count → Laid (assemble (optionsTold options) x) (tablesS sections.old instrs.old numbers.old strings.old pool.old names.old) (tablesS sections.new instrs.new numbers.new strings.new pool.new names.new) (countsTold result) }
{
    clear_names(names, name_count);
    let first = Counters {
        at: head_costs(nodes, lines, line_count),
        numbers: 0,
        strings: 0,
        chars: 0,
        values: 0,
        err: Section(0),
    };
    let from = LineEnd {
        head: 0,
        next: first,
        number: Section(line_count as u16),
    };
    let r = codegen_from_lines(
        s, nodes, lines, sections, instrs, numbers, strings, pool, names, line_count, from,
    );
    protect_names(s, names, name_count, options);
    let c = r.next;
    Counts {
        lines: line_count,
        sections: usize::from(r.number.0),
        instructions: c.at,
        numbers: usize::from(c.numbers),
        strings: usize::from(c.strings),
        characters: usize::from(c.chars),
        values: usize::from(c.values),
        names: name_count,
    }
}
