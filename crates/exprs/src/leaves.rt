// Expressions without operands: numbers and texts are read again from the file, where their nodes say.
//
// Each function is shown to do what the step of `rules` does. A caller owes bits that are there (`NumberAt`, `TextAt`) and room.
ghost use Rattle.std.specs.Prelude.{◌≡◌, List, ℕ, ◌+◌, ◌*◌, ◌^◌, ◌≤◌, ◌<◌, length, get_or};
ghost use Rattle.rules.specs.Constants.{nameBits, numberBits, mostCount};
ghost use Rattle.rules.specs.Bits.{spelled};
ghost use Rattle.rules.specs.Opcode as Op;
ghost use Rattle.rules.specs.Tree.{Expr};
ghost use Rattle.rules.specs.Parse.{signed as signedS};
ghost use Rattle.rules.specs.CodegenData.{newNum, newStr};
ghost use Rattle.rules.specs.Operators.{makeVal};
ghost use Rattle.bits.specs.Reads.{charsAt};
ghost use Rattle.nodes.specs.Holds.{HoldsE};
ghost use Rattle.codegen.specs.Does.{lent, ◌▷◌, DoesBoth, DoesStrs, DoesText};
ghost use Rattle.codegen.specs.Costs.{Spent, Room};
ghost use Rattle.exprs.specs.Exprs.{LeafReady, Lowers, NumberAt, TextAt, StringRoom};

use bits::peek;
use codegen::operators::{codegen_incdec, make_val};
use codegen::state::{Counters, Got, get_variable, new_num, new_strreg};
use nodes::kinds::NodeKind;
use nodes::node::Node;
use params::limits::{CHAR_BITS, NUMBER_BITS};
use words::instr::{StrReg, ValReg};
use words::text::StringWord;

// A number of the file as a value.
fn codegen_from_number(
    s: &[u8],
    instrs: &mut [u64],
    numbers: &mut [i64],
    c: Counters,
    p: usize,
) -> Got<ValReg>
    requires { NumberAt s.now p × Room c 1 1 1 (length instrs.old) (length numbers.old) }
    ensures spent { Spent c result.next 1 1 1 0 0 }
    ensures does { DoesBoth (newNum (signedS (spelled s.now numberBits p)) ▷ λ n. makeVal Op.ValueifyNum n) c instrs.old instrs.new numbers.old numbers.new result.reg.0 result.next }
{
    let z = peek(s, p, NUMBER_BITS).cast_signed();
    let n = new_num(numbers, c, z);
    make_val(instrs, n.next, n.reg)
}

// The characters at p of the file, as many as fill the text.
fn copy_text(s: &[u8], text: &mut [u8], p: usize)
    requires { TextAt s.now (length text.old) p }
    ensures { text.new ≡ charsAt s.now (length text.old) p }
{
    for (k, place) in text.iter_mut().enumerate() {
        *place = peek(s, p + CHAR_BITS * k, CHAR_BITS) as u8;
    }
}

// A string register that starts as the n characters at p.
fn new_str(
    s: &[u8],
    strings: &mut [u32],
    pool: &mut [u8],
    c: Counters,
    n: u16,
    p: usize,
) -> Got<StrReg>
    requires { TextAt s.now n p × StringRoom c n (length strings.old) (length pool.old) }
    ensures spent { Spent c result.next 0 0 0 1 n }
    ensures does { DoesStrs (newStr (charsAt s.now n p)) c strings.old strings.new pool.old pool.new result.reg.0 result.next }
{
    let t = new_strreg(c, n);
    let w = StringWord::pack(c.chars, n);
    strings[usize::from(t.reg.0)] = w.0;
    let start = usize::from(c.chars);
    copy_text(s, &mut pool[start..start + usize::from(n)], p);
    t
}

// A string of the file as a value.
fn codegen_from_string(
    s: &[u8],
    instrs: &mut [u64],
    strings: &mut [u32],
    pool: &mut [u8],
    c: Counters,
    n: u16,
    p: usize,
) -> Got<ValReg>
    requires { TextAt s.now n p × StringRoom c n (length strings.old) (length pool.old) × (c.at < length instrs.old) × (c.values < mostCount) }
    ensures spent { Spent c result.next 1 0 1 1 n }
    ensures does { DoesText (newStr (charsAt s.now n p) ▷ λ k. makeVal Op.ValueifyStr k) c instrs.old instrs.new strings.old strings.new pool.old pool.new result.reg.0 result.next }
{
    let t = new_str(s, strings, pool, c, n, p);
    make_val(instrs, t.next, t.reg)
}

// An expression without operands, by its node.
pub fn codegen_from_leaf(
    s: &[u8],
    instrs: &mut [u64],
    numbers: &mut [i64],
    strings: &mut [u32],
    pool: &mut [u8],
    names: &mut [u16],
    node: Node,
    c: Counters,
) -> Got<ValReg>
    requires { LeafReady s.now node.0 c (length instrs.old) (length numbers.old) (length strings.old) (length pool.old) (length names.old) }
    ensures { (u : List ℕ) (i m : ℕ) (e : Expr) (j : ℕ) → m ≤ 2 ^ nameBits → get_or u i 0 ≡ node.0 → HoldsE u s.now m i e j → Lowers m e c (lent instrs.old numbers.old strings.old pool.old names.old) (lent instrs.new numbers.new strings.new pool.new names.new) result.reg.0 result.next }
{
    // A word may be of no kind, so each kind is asked for, and the last is what is left.
    if node.is(NodeKind::Incdec) {
        return codegen_incdec(instrs, names, c, node.flag(), node.name());
    }
    if node.is(NodeKind::Ident) {
        return get_variable(names, c, node.name());
    }
    if node.is(NodeKind::Number) {
        return codegen_from_number(s, instrs, numbers, c, node.pos());
    }
    let n = node.name() as u16;
    codegen_from_string(s, instrs, strings, pool, c, n, node.pos())
}
