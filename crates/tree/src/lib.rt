// A whole file: its tree in lent tables, and its size.
//
// `size` is shown equal to `size` of `rules`, and asks nothing. `read_tree` refuses as `parse` does, or the tables hold the tree
// that `parse` reads; it asks for a line table of 255 words, and for a node table of 2,048 or of as many as the file can have.
// Between u64 and usize there is no `From`, and what is narrowed is shown to fit: so `as`.
#![tactic(auto)]

ghost use Rattle.std.specs.Prelude.{◌≡◌, ◌≤◌, ◌<◌, ◌*◌, ◌+◌, length};
ghost use Rattle.rules.specs.Constants.{mostBytes, mostLines, mostDepth, mostNodes};
ghost use Rattle.rules.specs.Operations.{size as sizeS};
ghost use Rattle.bits.specs.Reads.{Fine};
ghost use Rattle.nodes.specs.Builds.{Ready, ReadsList, mostNodesOf};
ghost use Rattle.tree.specs.Files.{LinesRead, EndRead, HeadRead, FileRead, TreeRead, sizeRes};

use bits::Cursor;
use params::limits::{
    BYTE_BITS, FORM, HEAD_BITS, LIST_BITS, MOST_BYTES, MOST_DEPTH, MOST_LINES, MOST_NODES,
    NAME_BITS,
};
use params::refusal::Refusal;

// A line's word is its count of statements, below this, and its first node.
pub const LINE_COUNTS: u64 = 1 << LIST_BITS;

// A file of so few bytes is read by a smaller table, which takes less time to clear: a node takes two bits at least.
pub const SMALL_BYTES: usize = 64;

pub const SMALL_NODES: usize = 4 * SMALL_BYTES;

// What is counted of a tree.
#[derive(Clone, Copy)]
pub struct Sizes {
    pub lines: u64,
    pub names: u64,
    pub statements: usize,
    pub nodes: usize,
    pub strings: usize,
    pub characters: usize,
}

// What a file's head counts.
#[derive(Clone, Copy)]
struct Head {
    lines: u64,
    names: u64,
}

// The end: fewer than a byte is left, all zero. Those bits are there, so the refusal that is passed on never comes.
fn fill(s: &[u8], c: Cursor) -> Result<Cursor, Refusal>
    requires { Fine s.now c }
    ensures { EndRead s.now c result }
{
    let left = s.len() * BYTE_BITS - c.pos;
    if left >= BYTE_BITS {
        return Err(Refusal::LeftOver);
    }
    let Ok((v, d)) = c.take(s, left) else {
        return Err(Refusal::EndsInField);
    };
    if v != 0 {
        return Err(Refusal::LeftOver);
    }
    Ok(d)
}

// A line's statements; answers their count. This is nodes' `read_list` but for an empty line, which is read here: many lines of a short script are
// empty, and that they take no call is one of the things that the times rest on (docs/PERFORMANCE.md; docs/DECISIONS.md 39).
fn read_line(s: &[u8], t: &mut [u64], c: Cursor, names: u64) -> Result<(u64, Cursor), Refusal>
    requires { Ready s.now t.old c names }
    ensures { ReadsList s.now t.old t.new c names mostDepth result }
{
    let (count, d) = c.take(s, LIST_BITS)?;
    if count == 0 {
        return Ok((count, d));
    }
    let e = nodes::read_block(s, t, d, names, MOST_DEPTH, count)?;
    Ok((count, e))
}

// The lines: of each its count of statements and its first node are kept in one word.
fn read_lines(
    s: &[u8],
    t: &mut [u64],
    ls: &mut [u64],
    c: Cursor,
    names: u64,
    lines: usize,
) -> Result<Cursor, Refusal>
    requires { (Ready s.now t.old c names) × (lines ≤ length ls.old) }
    ensures { LinesRead names lines s.now t.new ls.new c result }
{
    let mut d = c;
    for line in &mut ls[..lines] {
        let (count, e) = read_line(s, t, d, names)?;
        *line = count + LINE_COUNTS * (d.nodes as u64);
        d = e;
    }
    Ok(d)
}

// Form, lines and names.
fn read_head(s: &[u8]) -> Result<(Head, Cursor), Refusal>
    requires { length s.now ≤ mostBytes }
    ensures { HeadRead s.now result }
{
    let (form, c1) = Cursor::default().take(s, HEAD_BITS)?;
    if form != FORM {
        return Err(Refusal::OtherForm);
    }
    let (lines, c2) = c1.take(s, HEAD_BITS)?;
    if lines == 0 {
        return Err(Refusal::ZeroLines);
    }
    let (names, c3) = c2.take(s, NAME_BITS)?;
    Ok((Head { lines, names }, c3))
}

// The file, behind the test of its length; answers what its head counts.
fn read_file(s: &[u8], t: &mut [u64], ls: &mut [u64]) -> Result<(Head, Cursor), Refusal>
    requires { (length s.now ≤ mostBytes) × ((mostNodesOf (length s.now) ≤ length t.old) × (mostLines ≤ length ls.old)) }
    ensures { FileRead s.now t.new ls.new result }
{
    let (head, c) = read_head(s)?;
    let c1 = names::read_names(s, c, head.names as usize)?;
    let c2 = read_lines(s, t, ls, c1, head.names, head.lines as usize)?;
    let c3 = fill(s, c2)?;
    Ok((head, c3))
}

// The tree of a file in lent tables, and its size; or why it is refused.
pub fn read_tree(s: &[u8], t: &mut [u64], ls: &mut [u64]) -> Result<Sizes, Refusal>
    requires { (mostNodesOf (length s.now) ≤ length t.old) × (mostLines ≤ length ls.old) }
    ensures { TreeRead s.now t.new ls.new result }
{
    if s.len() > MOST_BYTES {
        return Err(Refusal::TooLong);
    }
    let (head, c) = read_file(s, t, ls)?;
    Ok(Sizes {
        lines: head.lines,
        names: head.names,
        statements: c.statements,
        nodes: c.nodes,
        strings: c.strings,
        characters: c.chars,
    })
}

// The size, by a node table of N words.
fn size_by<const N: usize>(s: &[u8]) -> Result<Sizes, Refusal>
    requires { (mostNodesOf (length s.now) ≤ N) × (N ≤ mostNodes) }
    ensures { sizeRes result ≡ sizeS s.now }
{
    let mut t = [0u64; N];
    let mut ls = [0u64; MOST_LINES];
    read_tree(s, &mut t, &mut ls)
}

// What a file's tree counts, or why it is refused.
pub fn size(bytes: &[u8]) -> Result<Sizes, Refusal>
    ensures { sizeRes result ≡ sizeS bytes.now }
{
    if bytes.len() <= SMALL_BYTES {
        return size_by::<SMALL_NODES>(bytes);
    }
    size_by::<MOST_NODES>(bytes)
}
