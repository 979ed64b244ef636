// Statements and lists of statements, as in yogi's codegen.rs. Since the node table keeps how many sections an Ite's lists make, each section is
// written with its final number and successor. A statement is lowered in two parts, its own section and the lists that it holds, since a line
// puts the first elsewhere.
//
// `codegen_from_stmt` and `codegen_and_link_stmts` call each other, with the remaining depth falling; both are shown to write the sections that
// `stmtSections` of `rules` makes of what `annotateStmts` gives, and `codegen_from_inside` those of a statement's lists (`InsideDone`). A caller
// owes the node table and room (`ListReady`, `InsideReady`).
ghost use Rattle.std.specs.Prelude.{◌≡◌, ℕ, ◌+◌, ◌^◌, ◌-◌, ◌%◌, ◌≤◌, ◌<◌, length};
ghost use Rattle.rules.specs.Constants.{nameBits, mostCount};
ghost use Rattle.rules.specs.Tree.{Block};
ghost use Rattle.nodes.specs.Holds.{HoldsB};
ghost use Rattle.nodes.specs.Words.{elseCount, elseWidth, nameIn, widthIn};
ghost use Rattle.nodes.specs.Width.{width};
ghost use Rattle.codegen.specs.Does.{lent};
ghost use Rattle.stmts.specs.Lists.{madeBy, linkedBy, entryBy, ListReady, ListDone, BranchReady, BranchDone, IteReady, IteDone};
ghost use Rattle.stmts.specs.Parts.{InsideReady, InsideDone};

use crate::sections::{Link, Place, codegen_from_own, put_section, successor};
use codegen::state::Counters;
use nodes::kinds::NodeKind;
use nodes::node::Node;
use words::instr::Section;
use words::section::SectionOrLine;

// The counters behind a list, the node behind it, and the number behind its sections.
#[derive(Clone, Copy)]
pub struct Ended {
    pub next: Counters,
    pub node: usize,
    pub number: Section,
}

// How many sections a statement makes.
#[tactic(auto, unfolding(crate::specs::Lists::madeBy))]
fn made(node: Node) -> u16
    ensures { result ≡ madeBy node.0 }
{
    if node.is(NodeKind::Ite) {
        return 2 + node.width() + node.else_width();
    }
    1
}

// The link of a list's first statement: it goes on to the others, if there are any.
#[tactic(auto, unfolding(crate::specs::Lists::entryBy))]
pub fn first_link(node: Node, count: usize, link: Link) -> Link
    requires { link.number.0 + madeBy node.0 ≤ mostCount }
    ensures linked { result.linked ≡ link.linked }
    ensures number { result.number.0 ≡ link.number.0 }
    ensures next { result.next.0 ≡ entryBy count (link.number.0 + madeBy node.0) link.next.0 }
{
    if count == 1 {
        return link;
    }
    Link {
        next: Section(link.number.0 + made(node)),
        ..link
    }
}

// The link of the others: behind a Goto they are not linked.
#[tactic(auto, unfolding(crate::specs::Lists::linkedBy))]
pub fn rest_link(node: Node, link: Link) -> Link
    requires { link.number.0 + madeBy node.0 ≤ mostCount }
    ensures linked { result.linked ≡ linkedBy node.0 link.linked }
    ensures number { result.number.0 ≡ link.number.0 + madeBy node.0 }
    ensures next { result.next.0 ≡ link.next.0 }
{
    Link {
        linked: link.linked && !node.is(NodeKind::Goto),
        number: Section(link.number.0 + made(node)),
        ..link
    }
}

// The statement at node i, with the lists that it holds.
#[cycle(codegen_and_link_stmts_codegen_from_branch_codegen_from_inside_codegen_from_lists_codegen_from_stmt)]
pub fn codegen_from_stmt(
    s: &[u8],
    nodes: &[u64],
    sections: &mut [u64],
    instrs: &mut [u64],
    numbers: &mut [i64],
    strings: &mut [u32],
    pool: &mut [u8],
    names: &mut [u16],
    i: usize,
    depth: usize,
    link: Link,
    c: Counters,
) -> Counters
    requires { ListReady s.now nodes.now i 1 depth link.number.0 c (length instrs.old) (length numbers.old) (length strings.old) (length pool.old) (length names.old) (length sections.old) }
    ensures { (m : ℕ) (x : Block) (z : ℕ) → m ≤ 2 ^ nameBits → HoldsB nodes.now s.now m 1 i x z → ListDone m x z link.linked link.number.0 link.next.0 c (lent instrs.old numbers.old strings.old pool.old names.old) (lent instrs.new numbers.new strings.new pool.new names.new) sections.old sections.new result z (link.number.0 + width x) }
{
    let place = Place {
        slot: link.number,
        start: false,
    };
    let d = codegen_from_own(
        s, nodes, sections, instrs, numbers, strings, pool, names, i, place, link, c,
    );
    codegen_from_inside(
        s, nodes, sections, instrs, numbers, strings, pool, names, i, depth, link, d,
    )
}

// The lists that the statement at node i holds, behind its own section.
#[cycle(codegen_and_link_stmts_codegen_from_branch_codegen_from_inside_codegen_from_lists_codegen_from_stmt)]
pub fn codegen_from_inside(
    s: &[u8],
    nodes: &[u64],
    sections: &mut [u64],
    instrs: &mut [u64],
    numbers: &mut [i64],
    strings: &mut [u32],
    pool: &mut [u8],
    names: &mut [u16],
    i: usize,
    depth: usize,
    link: Link,
    c: Counters,
) -> Counters
    requires { InsideReady s.now nodes.now i depth link.number.0 c (length instrs.old) (length numbers.old) (length strings.old) (length pool.old) (length names.old) (length sections.old) }
    ensures { (m : ℕ) (x : Block) (z : ℕ) → m ≤ 2 ^ nameBits → HoldsB nodes.now s.now m 1 i x z → InsideDone m x link.linked link.number.0 link.next.0 c (lent instrs.old numbers.old strings.old pool.old names.old) (lent instrs.new numbers.new strings.new pool.new names.new) sections.old sections.new result }
{
    let node = Node(nodes[i]);
    if !node.is(NodeKind::Ite) {
        return c;
    }
    let first = Node(nodes[i + 1]).last();
    let inner = Link {
        number: Section(link.number.0 + 1),
        ..link
    };
    codegen_from_lists(
        s, nodes, sections, instrs, numbers, strings, pool, names, first, node, depth, inner, c,
    )
}

// The two lists of an Ite, from node i on, and their join; how many statements and sections each makes its node says.
#[cycle(codegen_and_link_stmts_codegen_from_branch_codegen_from_inside_codegen_from_lists_codegen_from_stmt)]
fn codegen_from_lists(
    s: &[u8],
    nodes: &[u64],
    sections: &mut [u64],
    instrs: &mut [u64],
    numbers: &mut [i64],
    strings: &mut [u32],
    pool: &mut [u8],
    names: &mut [u16],
    i: usize,
    ite: Node,
    depth: usize,
    link: Link,
    c: Counters,
) -> Counters
    requires { IteReady s.now nodes.now i (nameIn ite.0) (elseCount ite.0) depth link.number.0 (widthIn ite.0) (elseWidth ite.0) c (length instrs.old) (length numbers.old) (length strings.old) (length pool.old) (length names.old) (length sections.old) }
    ensures { (m : ℕ) (x y : Block) (j z : ℕ) → m ≤ 2 ^ nameBits → HoldsB nodes.now s.now m (nameIn ite.0) i x j → HoldsB nodes.now s.now m (elseCount ite.0) j y z → IteDone m x y link.linked link.number.0 (widthIn ite.0) (elseWidth ite.0) link.next.0 c (lent instrs.old numbers.old strings.old pool.old names.old) (lent instrs.new numbers.new strings.new pool.new names.new) sections.old sections.new result }
{
    let other = Section(link.number.0 + ite.width());
    let join = Section(other.0 + ite.else_width());
    let a = ite.name();
    let b = ite.else_count();
    let d = depth - 1;
    let number = link.number;
    let t = codegen_from_branch(
        s, nodes, sections, instrs, numbers, strings, pool, names, i, a, d, number, join, c,
    );
    let e = codegen_from_branch(
        s, nodes, sections, instrs, numbers, strings, pool, names, t.node, b, d, other, join,
        t.next,
    );
    let place = Place {
        slot: join,
        start: false,
    };
    put_section(sections, place, successor(link), e.next.at, e.next.at);
    e.next
}

// An Ite's list, which goes on to the join; where it is empty it still makes a section.
#[cycle(codegen_and_link_stmts_codegen_from_branch_codegen_from_inside_codegen_from_lists_codegen_from_stmt)]
fn codegen_from_branch(
    s: &[u8],
    nodes: &[u64],
    sections: &mut [u64],
    instrs: &mut [u64],
    numbers: &mut [i64],
    strings: &mut [u32],
    pool: &mut [u8],
    names: &mut [u16],
    i: usize,
    count: usize,
    depth: usize,
    number: Section,
    join: Section,
    c: Counters,
) -> Ended
    requires { BranchReady s.now nodes.now i count depth number.0 c (length instrs.old) (length numbers.old) (length strings.old) (length pool.old) (length names.old) (length sections.old) × (count < 64) }
    ensures { (m : ℕ) (x : Block) (z : ℕ) → m ≤ 2 ^ nameBits → HoldsB nodes.now s.now m count i x z → BranchDone m x z number.0 join.0 c (lent instrs.old numbers.old strings.old pool.old names.old) (lent instrs.new numbers.new strings.new pool.new names.new) sections.old sections.new result.next result.node }
{
    if count == 0 {
        let place = Place {
            slot: number,
            start: false,
        };
        put_section(sections, place, SectionOrLine::Section(join), c.at, c.at);
        return Ended {
            next: c,
            node: i,
            number: Section(number.0 + 1),
        };
    }
    let link = Link {
        linked: true,
        number,
        next: join,
    };
    codegen_and_link_stmts(
        s, nodes, sections, instrs, numbers, strings, pool, names, i, count, depth, link, c,
    )
}

// A list of `count` statements from node i on: each goes on to the next, but for those behind a Goto.
#[cycle(codegen_and_link_stmts_codegen_from_branch_codegen_from_inside_codegen_from_lists_codegen_from_stmt)]
pub fn codegen_and_link_stmts(
    s: &[u8],
    nodes: &[u64],
    sections: &mut [u64],
    instrs: &mut [u64],
    numbers: &mut [i64],
    strings: &mut [u32],
    pool: &mut [u8],
    names: &mut [u16],
    i: usize,
    count: usize,
    depth: usize,
    link: Link,
    c: Counters,
) -> Ended
    requires { ListReady s.now nodes.now i count depth link.number.0 c (length instrs.old) (length numbers.old) (length strings.old) (length pool.old) (length names.old) (length sections.old) }
    ensures { (m : ℕ) (x : Block) (z : ℕ) → m ≤ 2 ^ nameBits → HoldsB nodes.now s.now m count i x z → ListDone m x z link.linked link.number.0 link.next.0 c (lent instrs.old numbers.old strings.old pool.old names.old) (lent instrs.new numbers.new strings.new pool.new names.new) sections.old sections.new result.next result.node result.number.0 }
{
    let mut d = c;
    let mut at = i;
    let mut here = link;
    for done in 0..count {
        let node = Node(nodes[at]);
        let first = first_link(node, count - done, here);
        d = codegen_from_stmt(
            s, nodes, sections, instrs, numbers, strings, pool, names, at, depth, first, d,
        );
        at = node.last();
        here = rest_link(node, here);
    }
    Ended {
        next: d,
        node: at,
        number: here.number,
    }
}
