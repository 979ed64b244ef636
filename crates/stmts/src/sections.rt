// A statement's own section: what it emits itself, and the word of its section.
//
// Each function is shown to make a section of what the step of `rules` emits (`Makes`); `codegen_from_own` chooses among them by the node's kind,
// for lists and for lines (`OwnDone`). A caller owes the node table and room (`Holding`, `OwnReady`), a slot in the table of sections, and
// instructions below 65,536.
ghost use Rattle.std.specs.Prelude.{◌≡◌, List, map, ℤ, ℕ, ◌+◌, ◌^◌, ◌-◌, ◌≤◌, ◌<◌, length, set};
ghost use Rattle.std.proofs.lemmas.List.Edits.{sets};
ghost use Rattle.rules.specs.Constants.{nameBits, mostCount};
ghost use Rattle.rules.specs.Tables.{runOf};
ghost use Rattle.rules.specs.Tree as Tree;
ghost use Rattle.rules.specs.Tree.{Block};
ghost use Rattle.codegen.specs.Costs.{Spent};
ghost use Rattle.exprs.specs.Exprs.{SpentOn};
ghost use Rattle.stmts.specs.Told.{assignTold, assignCost};
ghost use Rattle.rules.specs.Word.{runWord, insWord};
ghost use Rattle.rules.specs.Operators.{codegenIncdec};
ghost use Rattle.rules.specs.Annotate.{codegenFromAssign, lineNumber, condition as conditionS};
ghost use Rattle.rules.specs.Assemble.{link as linkS};
ghost use Rattle.rules.specs.Machine as Machine;
ghost use Rattle.words.specs.Runs as Runs;
ghost use Rattle.nodes.specs.Holds.{HoldsE, HoldsB};
ghost use Rattle.codegen.specs.Does.{lent};
ghost use Rattle.stmts.specs.Own.{Holding, Setting};
ghost use Rattle.stmts.specs.Makes.{Makes, nothing, jump, jumpCost, placed};
ghost use Rattle.stmts.specs.Parts.{OwnReady, OwnDone};

use crate::own::{Assignop, codegen_from_assign, condition, line_number};
use codegen::operators::codegen_incdec;
use codegen::state::{Counters, emit_word};
use nodes::kinds::NodeKind;
use nodes::node::Node;
use words::instr::{Instruction, NumReg, Section};
use words::section::{SectionOrLine, SectionWord};

// Where a section's word goes, and whether it is a line start.
#[derive(Clone, Copy)]
pub struct Place {
    pub slot: Section,
    pub start: bool,
}

// How a list is linked: whether it is, the number of its first section, the section that follows it. The flag stands beside the section: what
// follows an unlinked statement is promised too (`entryBy` in `first_link`).
#[derive(Clone, Copy)]
pub struct Link {
    pub linked: bool,
    pub number: Section,
    pub next: Section,
}

// The word of a section whose instructions stand from `first` up to `end`.
pub fn put_section(
    sections: &mut [u64],
    place: Place,
    success: SectionOrLine,
    first: usize,
    end: usize,
)
    requires { (place.slot.0 < length sections.old) × (first ≤ end) × (end < 65536) }
    ensures { sections.new ≡ set sections.old place.slot.0 (runWord (runOf place.start (Runs.successTold success) first (end - first))) }
{
    let w = SectionWord::pack(place.start, success, first as u16, (end - first) as u16);
    sections[usize::from(place.slot.0)] = w.0;
}

// The successor of a linked or an unlinked statement.
pub fn successor(link: Link) -> SectionOrLine
    ensures { Runs.successTold result ≡ linkS link.linked link.next.0 }
{
    if link.linked {
        SectionOrLine::Section(link.next)
    } else {
        SectionOrLine::Unfixed
    }
}

// An Incdec.
pub fn codegen_from_step(
    sections: &mut [u64],
    instrs: &mut [u64],
    names: &mut [u16],
    c: Counters,
    place: Place,
    link: Link,
    inc: bool,
    x: usize,
) -> Counters
    requires { (c.at + 2 ≤ length instrs.old) × (x < length names.old) × (c.values < mostCount) × (place.slot.0 < length sections.old) × (c.at + 2 < 65536) }
    ensures { (n : ℕ) (ns : List ℤ) (ss ps : List ℕ) → x < n → Makes n (codegenIncdec inc x) place.start nothing (λ _. linkS link.linked link.next.0) place.slot.0 c (lent instrs.old ns ss ps names.old) (lent instrs.new ns ss ps names.new) sections.old sections.new result × Spent c result 2 0 1 0 0 }
{
    let d = codegen_incdec(instrs, names, c, inc, x).next;
    put_section(sections, place, successor(link), c.at, d.at);
    d
}

// A Goto, whose expression is at node i.
pub fn codegen_from_goto(
    s: &[u8],
    nodes: &[u64],
    sections: &mut [u64],
    instrs: &mut [u64],
    numbers: &mut [i64],
    strings: &mut [u32],
    pool: &mut [u8],
    names: &mut [u16],
    i: usize,
    c: Counters,
    place: Place,
) -> Counters
    requires { Holding s.now nodes.now i c 2 1 0 (length instrs.old) (length numbers.old) (length strings.old) (length pool.old) (length names.old) × (place.slot.0 < length sections.old) × (length instrs.old < 65536) }
    ensures { (m : ℕ) (e : Tree.Expr) (j : ℕ) → m ≤ 2 ^ nameBits → HoldsE nodes.now s.now m i e j → Makes m (lineNumber e) place.start nothing Machine.line place.slot.0 c (lent instrs.old numbers.old strings.old pool.old names.old) (lent instrs.new numbers.new strings.new pool.new names.new) sections.old sections.new result × SpentOn e 2 1 0 c result }
{
    let n = line_number(s, nodes, instrs, numbers, strings, pool, names, i, c);
    let d = n.next;
    put_section(sections, place, SectionOrLine::Line(n.reg), c.at, d.at);
    d
}

// An Assign to the name x by the operator op, whose expression is at node i.
pub fn codegen_from_set(
    s: &[u8],
    nodes: &[u64],
    sections: &mut [u64],
    instrs: &mut [u64],
    numbers: &mut [i64],
    strings: &mut [u32],
    pool: &mut [u8],
    names: &mut [u16],
    i: usize,
    c: Counters,
    place: Place,
    link: Link,
    x: usize,
    op: Assignop,
) -> Counters
    requires { Setting s.now nodes.now i c x (length instrs.old) (length numbers.old) (length strings.old) (length pool.old) (length names.old) × (place.slot.0 < length sections.old) × (length instrs.old < 65536) }
    ensures { (m : ℕ) (e : Tree.Expr) (j : ℕ) → m ≤ 2 ^ nameBits → x < m → HoldsE nodes.now s.now m i e j → Makes m (codegenFromAssign x (assignTold op) e) place.start nothing (λ _. linkS link.linked link.next.0) place.slot.0 c (lent instrs.old numbers.old strings.old pool.old names.old) (lent instrs.new numbers.new strings.new pool.new names.new) sections.old sections.new result × SpentOn e (assignCost (assignTold op)) 2 2 c result }
{
    let d = codegen_from_assign(s, nodes, instrs, numbers, strings, pool, names, i, c, x, op);
    put_section(sections, place, successor(link), c.at, d.at);
    d
}

// An Ite's jump to its then-list, unless that is empty. The flag stands beside the section, as in `ownSection`: over an Option of one, `jump`
// and its cost would have to be defined a second time.
fn add_jump(instrs: &mut [u64], c: Counters, empty: bool, target: Section, test: NumReg) -> Counters
    requires { c.at < length instrs.old }
    ensures code { instrs.new ≡ sets instrs.old c.at (map insWord (jump empty target.0 test.0)) }
    ensures next { result ≡ placed c (c.at + length (jump empty target.0 test.0)) }
{
    if empty {
        return c;
    }
    emit_word(instrs, c, Instruction::jump_section_if(target, test))
}

// An Ite's own section: its condition, whose expression is at node i, and its jump to its then-list at `target`. It is left to its else-list.
pub fn codegen_from_test(
    s: &[u8],
    nodes: &[u64],
    sections: &mut [u64],
    instrs: &mut [u64],
    numbers: &mut [i64],
    strings: &mut [u32],
    pool: &mut [u8],
    names: &mut [u16],
    i: usize,
    c: Counters,
    place: Place,
    empty: bool,
    target: Section,
    other: Section,
) -> Counters
    requires { Holding s.now nodes.now i c 2 1 0 (length instrs.old) (length numbers.old) (length strings.old) (length pool.old) (length names.old) × (place.slot.0 < length sections.old) × (length instrs.old < 65536) }
    ensures { (m : ℕ) (e : Tree.Expr) (j : ℕ) → m ≤ 2 ^ nameBits → HoldsE nodes.now s.now m i e j → Makes m (conditionS e) place.start (jump empty target.0) (λ _. Machine.section other.0) place.slot.0 c (lent instrs.old numbers.old strings.old pool.old names.old) (lent instrs.new numbers.new strings.new pool.new names.new) sections.old sections.new result × SpentOn e (1 + jumpCost empty) 1 0 c result }
{
    let n = condition(s, nodes, instrs, numbers, strings, pool, names, i, c);
    let d = add_jump(instrs, n.next, empty, target, n.reg);
    put_section(sections, place, SectionOrLine::Section(other), c.at, d.at);
    d
}

// The own section of the statement at node i. Its kind is asked for one by one, the Ite last: a match would have to name the kinds of expressions too.
pub fn codegen_from_own(
    s: &[u8],
    nodes: &[u64],
    sections: &mut [u64],
    instrs: &mut [u64],
    numbers: &mut [i64],
    strings: &mut [u32],
    pool: &mut [u8],
    names: &mut [u16],
    i: usize,
    place: Place,
    link: Link,
    c: Counters,
) -> Counters
    requires { OwnReady s.now nodes.now i link.number.0 place.slot.0 c (length instrs.old) (length numbers.old) (length strings.old) (length pool.old) (length names.old) (length sections.old) }
    ensures { (m : ℕ) (x : Block) (z : ℕ) → m ≤ 2 ^ nameBits → HoldsB nodes.now s.now m 1 i x z → OwnDone m x place.start link.linked link.number.0 link.next.0 place.slot.0 c (lent instrs.old numbers.old strings.old pool.old names.old) (lent instrs.new numbers.new strings.new pool.new names.new) sections.old sections.new result }
{
    let node = Node(nodes[i]);
    let x = node.name();
    let h = i + 1;
    if node.is(NodeKind::Goto) {
        return codegen_from_goto(
            s, nodes, sections, instrs, numbers, strings, pool, names, h, c, place,
        );
    }
    if node.is(NodeKind::Step) {
        return codegen_from_step(sections, instrs, names, c, place, link, node.flag(), x);
    }
    if node.is(NodeKind::Assign) {
        let op = Assignop::of(node.op());
        return codegen_from_set(
            s, nodes, sections, instrs, numbers, strings, pool, names, h, c, place, link, x, op,
        );
    }
    let empty = x == 0;
    let first = Section(link.number.0 + 1);
    let other = Section(first.0 + node.width());
    codegen_from_test(
        s, nodes, sections, instrs, numbers, strings, pool, names, h, c, place, empty, first, other,
    )
}
