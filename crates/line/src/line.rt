// A line: its first statement's own section goes to the line's number, as a line start; a placeholder stands where it was made, and the others
// stand behind that. So there are two cursors into the instructions: one for first sections, one for all others.
//
// `codegen_from_line` is shown to make a line's sections as `headOf` and `tailOf` of `rules` part them (`LineDone`). A caller owes the node table
// and room.
ghost use Rattle.std.specs.Prelude.{◌≡◌, ℕ, ◌≤◌, length, ◌^◌};
ghost use Rattle.rules.specs.Constants.{nameBits};
ghost use Rattle.rules.specs.Tree.{Block};
ghost use Rattle.nodes.specs.Holds.{HoldsB};
ghost use Rattle.codegen.specs.Does.{lent};
ghost use Rattle.stmts.specs.Makes.{placed};
ghost use Rattle.line.specs.Lines.{LineReady, LineDone};

use codegen::state::Counters;
use nodes::node::Node;
use stmts::sections::{Link, Place, codegen_from_own, put_section};
use stmts::stmt::{codegen_and_link_stmts, codegen_from_inside, first_link, rest_link};
use words::instr::Section;
use words::section::SectionOrLine;

// Where a line ended, and the next begins: the cursor of first sections, the counters, and the number behind its sections.
#[derive(Clone, Copy)]
pub struct LineEnd {
    pub head: usize,
    pub next: Counters,
    pub number: Section,
}

// The counters with another cursor.
fn with_cursor(c: Counters, at: usize) -> Counters
    ensures { result ≡ placed c at }
{
    Counters { at, ..c }
}

// The line of `count` statements from node i on, behind the lines that ended at `from`. Errors and the line's end go to the same line, the next.
pub fn codegen_from_line(
    s: &[u8],
    nodes: &[u64],
    sections: &mut [u64],
    instrs: &mut [u64],
    numbers: &mut [i64],
    strings: &mut [u32],
    pool: &mut [u8],
    names: &mut [u16],
    i: usize,
    count: usize,
    depth: usize,
    line: Section,
    from: LineEnd,
) -> LineEnd
    requires { LineReady s.now nodes.now i count depth line.0 from.number.0 from.head from.next (length instrs.old) (length numbers.old) (length strings.old) (length pool.old) (length names.old) (length sections.old) }
    ensures { (m : ℕ) (x : Block) (z : ℕ) → m ≤ 2 ^ nameBits → HoldsB nodes.now s.now m count i x z → LineDone m x line.0 from.number.0 from.head from.next (lent instrs.old numbers.old strings.old pool.old names.old) (lent instrs.new numbers.new strings.new pool.new names.new) sections.old sections.new result.head result.next result.number.0 }
{
    let c = from.next;
    let start = true;
    let head_place = Place { slot: line, start };
    if count == 0 {
        let success = SectionOrLine::Section(c.err);
        put_section(sections, head_place, success, from.head, from.head);
        return from;
    }
    let node = Node(nodes[i]);
    let link = Link {
        linked: true,
        number: from.number,
        next: c.err,
    };
    let first = first_link(node, count, link);
    let own = with_cursor(c, from.head);
    let d = codegen_from_own(
        s, nodes, sections, instrs, numbers, strings, pool, names, i, head_place, first, own,
    );
    let slot = from.number;
    let placeholder = Place { slot, start };
    put_section(sections, placeholder, SectionOrLine::Unfixed, c.at, c.at);
    let behind = with_cursor(d, c.at);
    let e = codegen_from_inside(
        s, nodes, sections, instrs, numbers, strings, pool, names, i, depth, first, behind,
    );
    let others = rest_link(node, link);
    let at = node.last();
    let left = count - 1;
    let r = codegen_and_link_stmts(
        s, nodes, sections, instrs, numbers, strings, pool, names, at, left, depth, others, e,
    );
    LineEnd {
        head: d.at,
        next: r.next,
        number: r.number,
    }
}
