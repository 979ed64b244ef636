// All lines of a tree. `rules` goes from a line to the lines behind it; a loop here keeps that whatever the lines behind do, the whole then does.
//
// `head_costs` is shown to count the own instructions of the lines' first statements, `codegen_from_lines` to make the sections that `heads`
// and `tails` of `rules` say (`LinesDone`). A caller owes the tables of nodes and lines, and room.
//
// The count of lines stands beside their table: C lends a longer one, and `HoldsL` is of the lent table and a count.
ghost use Rattle.std.specs.Prelude.{◌≡◌, List, ℕ, ◌≤◌, ◌<◌, ◌/◌, ◌%◌, length, ◌^◌};
ghost use Rattle.rules.specs.Constants.{mostBytes, nameBits, mostLines};
ghost use Rattle.rules.specs.Tree.{Block};
ghost use Rattle.rules.specs.Assemble.{nextLine};
ghost use Rattle.nodes.specs.Holds.{HoldsB};
ghost use Rattle.tree.specs.Files.{HoldsL, countIn, firstIn};
ghost use Rattle.stmts.specs.Parts.{ownCost};
ghost use Rattle.codegen.specs.Does.{lent};
ghost use Rattle.line.specs.Costs.{ListAt};
ghost use Rattle.program.specs.Script.{ownCosts, aimedAt, LinesAt, LinesReady, LinesDone};

use codegen::state::Counters;
use line::heads::own_cost;
use line::line::{LineEnd, codegen_from_line};
use params::limits::MOST_DEPTH;
use tree::LINE_COUNTS;
use words::instr::Section;

// A line's word.
#[derive(Clone, Copy)]
struct LineWord(u64);

impl LineWord {
    // How many statements it has.
    fn count(self) -> usize
        ensures { result ≡ countIn self.0 }
    {
        (self.0 % LINE_COUNTS) as usize
    }

    // Its first node.
    fn first(self) -> usize
        ensures { result ≡ firstIn self.0 }
    {
        (self.0 / LINE_COUNTS) as usize
    }
}

// How many instructions the first statement of a line emits itself; an empty line has none.
fn head_cost(nodes: &[u64], line: LineWord) -> usize
    requires { ListAt nodes.now (firstIn line.0) (countIn line.0) }
    ensures { (s : List ℕ) (m : ℕ) (x : Block) (z : ℕ) → length s ≤ mostBytes → m ≤ 2 ^ nameBits → HoldsB nodes.now s m (countIn line.0) (firstIn line.0) x z → result ≡ ownCost x }
{
    if line.count() == 0 {
        return 0;
    }
    own_cost(nodes, line.first())
}

// And so of all lines. A loop, no `sum`: `head_cost` asks that its line is held, which a closure over any word cannot say.
pub fn head_costs(nodes: &[u64], lines: &[u64], count: usize) -> usize
    requires { LinesAt nodes.now lines.now count }
    ensures { (s : List ℕ) (m : ℕ) (bs : List Block) (i z : ℕ) → length s ≤ mostBytes → m ≤ 2 ^ nameBits → HoldsL nodes.now lines.now s m 0 i bs count z → result ≡ ownCosts bs }
{
    let mut sum = 0;
    for &w in &lines[..count] {
        sum += head_cost(nodes, LineWord(w));
    }
    sum
}

// The line behind line k: errors go there, and so does the line's end.
fn next_line(k: usize, count: usize) -> Section
    requires { (k < count) × (count ≤ mostLines) }
    ensures { result.0 ≡ nextLine count k }
{
    if k + 1 == count {
        return Section(0);
    }
    Section((k + 1) as u16)
}

// The counters with errors to another line.
fn aimed_at(c: Counters, err: Section) -> Counters
    ensures { result ≡ aimedAt c err }
{
    Counters { err, ..c }
}

// All lines, from `from` on. No Ite nests deeper than the limit of depth.
pub fn codegen_from_lines(
    s: &[u8],
    nodes: &[u64],
    lines: &[u64],
    sections: &mut [u64],
    instrs: &mut [u64],
    numbers: &mut [i64],
    strings: &mut [u32],
    pool: &mut [u8],
    names: &mut [u16],
    count: usize,
    from: LineEnd,
) -> LineEnd
    requires { LinesReady s.now nodes.now lines.now 0 count from.number.0 from.head from.next (length instrs.old) (length numbers.old) (length strings.old) (length pool.old) (length names.old) (length sections.old) }
    ensures { (m : ℕ) (bs : List Block) (i z : ℕ) → m ≤ 2 ^ nameBits → HoldsL nodes.now lines.now s.now m 0 i bs count z → LinesDone m count 0 bs from.number.0 from.head from.next (lent instrs.old numbers.old strings.old pool.old names.old) (lent instrs.new numbers.new strings.new pool.new names.new) sections.old sections.new result.head result.next result.number.0 }
{
    let mut done = from;
    for (k, &w) in lines[..count].iter().enumerate() {
        let line = LineWord(w);
        let at = line.first();
        let statements = line.count();
        let slot = Section(k as u16);
        let next = aimed_at(done.next, next_line(k, count));
        let here = LineEnd { next, ..done };
        done = codegen_from_line(
            s, nodes, sections, instrs, numbers, strings, pool, names, at, statements, MOST_DEPTH,
            slot, here,
        );
    }
    done
}
