// The reader of expressions and statements: it fills a lent table of nodes, one word a node.
//
// Each reader is shown equal to that of `rules`: it refuses as that does, or the table holds what that reads (specs/Holds) and the
// cursor has counted it. A caller owes a table for as many nodes as the file can have, at most 255 names and a cursor within the limits (`Ready`).
// Between u64 and usize there is no `From`, and what is narrowed is shown to fit: so `as`.
#![tactic(auto)]

pub mod kinds;
pub mod layout;
pub mod node;

ghost use Rattle.std.specs.Prelude.{◌≡◌, ◌≤◌, ◌<◌, ◌*◌, ◌+◌, ◌-◌, ◌^◌, length, set};
ghost use Rattle.rules.specs.Constants.{mostNodes, nameBits, listBits, operatorBits};
ghost use Rattle.rules.specs.Parse.{expr, identOf, numberOf, stringOf, gotoOf, assignOf};
ghost use Rattle.nodes.specs.Words.{posBits, widthBits, lastBits, wordOf, iteWord};
ghost use Rattle.nodes.specs.Kinds.{kindTold};
ghost use Rattle.nodes.specs.Width.{orOne};
ghost use Rattle.nodes.specs.Builds.{Ready, Begun, BegunStmt, Spans, Builds, before, beforeStmt, joined, heldE, countE, heldF, countF, flagR, leafR, heldS, countS, ReadsExpr, ReadsStmt, ReadsBlock, ReadsList};

use crate::layout::{COUNTS, LAST, NAME, OP, POS, WIDTH};
use bits::Cursor;
use kinds::{NodeKind, STATEMENTS};
use params::limits::{
    ASSIGN_BITS, ASSIGNOPS, BINOPS, EXPR_KIND_BITS, FLAG_BITS, LIST_BITS, NAME_BITS, NUMBER_BITS,
    OPERATOR_BITS, STMT_KIND_BITS, STRING_LENGTH_BITS, UNOPS,
};
use params::refusal::Refusal;

// The file, the table and the count of names are lent to each reader as they are: in a struct each contract's words would stand one field deeper.
// `below` checks an operator's number by how many its kind has, and no `TryFrom` does: the word keeps the number of an operator of three kinds.

// A node's word. `op` is a number, since it is that of an operator of three kinds, or a flag.
#[tactic(auto, unfolding(crate::specs::Words::wordOf))]
fn word(kind: NodeKind, op: u64, name: u64, pos: usize, last: usize, width: usize) -> u64
    requires { (op < 2 ^ operatorBits) × (name < 2 ^ nameBits) × (pos < 2 ^ posBits) × (last < 2 ^ lastBits) × (width < 2 ^ widthBits) }
    ensures { result ≡ wordOf (kindTold kind) op name pos last width }
{
    let low = kind as u64 + OP * op + NAME * name + POS * (pos as u64);
    low + WIDTH * (width as u64) + LAST * (last as u64)
}

// Node i is done: its word is written, now that the node behind it is known.
fn close(t: &mut [u64], i: usize, kind: NodeKind, op: u64, name: u64, pos: usize, last: usize)
    requires { (i < length t.old) × (op < 2 ^ operatorBits) × (name < 2 ^ nameBits) × (pos < 2 ^ posBits) × (last ≤ mostNodes) }
    ensures { t.new ≡ set t.old i (wordOf (kindTold kind) op name pos last 0) }
{
    t[i] = word(kind, op, name, pos, last, 0);
}

// The Ite i is done: its lists of a and b statements began at the sections x and y, and make one section where they are empty.
// Its word keeps how many they make.
#[tactic(auto, unfolding(crate::specs::Width::orOne))]
fn close_ite(t: &mut [u64], i: usize, a: u64, b: u64, x: usize, y: usize, c: Cursor) -> Cursor
    requires { (i < length t.old) × (a < 2 ^ listBits) × (b < 2 ^ listBits) × (c.nodes ≤ mostNodes) × (Spans x y c.sections) }
    ensures table { t.new ≡ set t.old i (iteWord a b (orOne (y - x)) (orOne (c.sections - y)) c.nodes) }
    ensures counted { result ≡ joined x y c }
{
    let v = (y - x).max(1);
    let w = (c.sections - y).max(1);
    let more = b + COUNTS * (w as u64);
    t[i] = word(NodeKind::Ite, 0, a, more as usize, c.nodes, v);
    Cursor {
        sections: x + v + w + 1,
        ..c
    }
}

// A flag and a name: an Incdec, as an expression or as a statement.
fn flagged(
    s: &[u8],
    t: &mut [u64],
    c: Cursor,
    names: u64,
    i: usize,
    kind: NodeKind,
) -> Result<Cursor, Refusal>
    requires { Begun s.now t.old c names i }
    ensures { Builds (flagR names) (heldF (kindTold kind) names) countF s.now t.old t.new (before i c) c result }
{
    let (b, d) = c.take(s, FLAG_BITS)?;
    let (x, e) = d.below(s, NAME_BITS, names, Refusal::UnknownName)?;
    close(t, i, kind, b, x, 0, e.nodes);
    Ok(e)
}

fn ident(s: &[u8], t: &mut [u64], c: Cursor, names: u64, i: usize) -> Result<Cursor, Refusal>
    requires { Begun s.now t.old c names i }
    ensures { Builds (identOf names) (heldE s.now names) countE s.now t.old t.new (before i c) c result }
{
    let (x, d) = c.below(s, NAME_BITS, names, Refusal::UnknownName)?;
    close(t, i, NodeKind::Ident, 0, x, 0, d.nodes);
    Ok(d)
}

// Its word keeps where the number stands.
fn number(s: &[u8], t: &mut [u64], c: Cursor, names: u64, i: usize) -> Result<Cursor, Refusal>
    requires { Begun s.now t.old c names i }
    ensures { Builds numberOf (heldE s.now names) countE s.now t.old t.new (before i c) c result }
{
    let d = c.pass(s, NUMBER_BITS)?;
    close(t, i, NodeKind::Number, 0, 0, c.pos, d.nodes);
    Ok(d)
}

// Its word keeps the length and where the characters stand.
fn string(s: &[u8], t: &mut [u64], c: Cursor, names: u64, i: usize) -> Result<Cursor, Refusal>
    requires { Begun s.now t.old c names i }
    ensures { Builds stringOf (heldE s.now names) countE s.now t.old t.new (before i c) c result }
{
    let (l, d) = c.take(s, STRING_LENGTH_BITS)?;
    let n = l as usize;
    let e = d.skip(s, n)?;
    close(t, i, NodeKind::String, 0, l, d.pos, e.nodes);
    Ok(Cursor {
        strings: e.strings + 1,
        chars: e.chars + n,
        ..e
    })
}

// An expression with no operands. Its kind is one of the four: the other two are read by the caller and a statement's is none, so the last arm is
// never reached.
fn leaf(
    s: &[u8],
    t: &mut [u64],
    c: Cursor,
    names: u64,
    i: usize,
    kind: NodeKind,
) -> Result<Cursor, Refusal>
    requires { Begun s.now t.old c names i }
    ensures { Builds (leafR names (kindTold kind)) (heldE s.now names) countE s.now t.old t.new (before i c) c result }
{
    match kind {
        NodeKind::Incdec => flagged(s, t, c, names, i, NodeKind::Incdec),
        NodeKind::Ident => ident(s, t, c, names, i),
        NodeKind::Number => number(s, t, c, names, i),
        NodeKind::String => string(s, t, c, names, i),
        _ => Err(Refusal::Unassigned),
    }
}

// An expression with `depth` levels left: its operands are read first, its word is written last.
pub fn read_expr(
    s: &[u8],
    t: &mut [u64],
    c: Cursor,
    names: u64,
    depth: usize,
) -> Result<Cursor, Refusal>
    requires { Ready s.now t.old c names }
    ensures { ReadsExpr s.now t.old t.new c names depth result }
{
    let i = c.nodes;
    let (k, c1) = c.begin(s, EXPR_KIND_BITS, false, depth)?;
    let d = depth - 1;
    let kind = NodeKind::try_from(k)?;
    match kind {
        NodeKind::Binop => {
            let (op, c2) = c1.below(s, OPERATOR_BITS, BINOPS, Refusal::Unassigned)?;
            let c3 = read_expr(s, t, c2, names, d)?;
            let c4 = read_expr(s, t, c3, names, d)?;
            close(t, i, NodeKind::Binop, op, 0, 0, c4.nodes);
            Ok(c4)
        }
        NodeKind::Unop => {
            let (op, c2) = c1.below(s, OPERATOR_BITS, UNOPS, Refusal::Unassigned)?;
            let c3 = read_expr(s, t, c2, names, d)?;
            close(t, i, NodeKind::Unop, op, 0, 0, c3.nodes);
            Ok(c3)
        }
        _ => leaf(s, t, c1, names, i, kind),
    }
}

// A Goto, behind its kind.
fn goto_rest(
    s: &[u8],
    t: &mut [u64],
    c: Cursor,
    names: u64,
    depth: usize,
    i: usize,
) -> Result<Cursor, Refusal>
    requires { BegunStmt s.now t.old c names i }
    ensures { Builds (gotoOf (expr names depth)) (heldS s.now names) countS s.now t.old t.new (beforeStmt i c) c result }
{
    let d = read_expr(s, t, c, names, depth)?;
    close(t, i, NodeKind::Goto, 0, 0, 0, d.nodes);
    Ok(d)
}

// An Assign, behind its kind.
fn assign(
    s: &[u8],
    t: &mut [u64],
    c: Cursor,
    names: u64,
    depth: usize,
    i: usize,
) -> Result<Cursor, Refusal>
    requires { BegunStmt s.now t.old c names i }
    ensures { Builds (assignOf names (expr names depth)) (heldS s.now names) countS s.now t.old t.new (beforeStmt i c) c result }
{
    let (x, c1) = c.below(s, NAME_BITS, names, Refusal::UnknownName)?;
    let (op, c2) = c1.below(s, ASSIGN_BITS, ASSIGNOPS, Refusal::Unassigned)?;
    let c3 = read_expr(s, t, c2, names, depth)?;
    close(t, i, NodeKind::Assign, op, x, 0, c3.nodes);
    Ok(c3)
}

// A statement with `depth` levels left. Two bits name four kinds: neither the refusal of `try_from` nor the last arm is ever reached.
#[cycle(statements)]
pub fn read_stmt(
    s: &[u8],
    t: &mut [u64],
    c: Cursor,
    names: u64,
    depth: usize,
) -> Result<Cursor, Refusal>
    requires { Ready s.now t.old c names }
    ensures { ReadsStmt s.now t.old t.new c names depth result }
{
    let i = c.nodes;
    let (k, c1) = c.begin(s, STMT_KIND_BITS, true, depth)?;
    let d = depth - 1;
    match NodeKind::try_from(STATEMENTS + k)? {
        NodeKind::Goto => goto_rest(s, t, c1, names, d, i),
        NodeKind::Ite => {
            let c2 = read_expr(s, t, c1, names, d)?;
            let (a, c3) = read_list(s, t, c2, names, d)?;
            let (b, c4) = read_list(s, t, c3, names, d)?;
            Ok(close_ite(t, i, a, b, c2.sections, c3.sections, c4))
        }
        NodeKind::Step => flagged(s, t, c1, names, i, NodeKind::Step),
        NodeKind::Assign => assign(s, t, c1, names, d, i),
        _ => Err(Refusal::Unassigned),
    }
}

// A count and so many statements; answers the count.
#[cycle(statements)]
pub fn read_list(
    s: &[u8],
    t: &mut [u64],
    c: Cursor,
    names: u64,
    depth: usize,
) -> Result<(u64, Cursor), Refusal>
    requires { Ready s.now t.old c names }
    ensures { ReadsList s.now t.old t.new c names depth result }
{
    let (count, d) = c.take(s, LIST_BITS)?;
    let e = read_block(s, t, d, names, depth, count)?;
    Ok((count, e))
}

// As many statements as were counted.
#[cycle(statements)]
pub fn read_block(
    s: &[u8],
    t: &mut [u64],
    c: Cursor,
    names: u64,
    depth: usize,
    count: u64,
) -> Result<Cursor, Refusal>
    requires { (Ready s.now t.old c names) × (count < 2 ^ listBits) }
    ensures { ReadsBlock s.now t.old t.new c names depth count result }
{
    let mut d = c;
    for _ in 0..count {
        d = read_stmt(s, t, d, names, depth)?;
    }
    Ok(d)
}
