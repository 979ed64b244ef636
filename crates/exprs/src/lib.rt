// Lowering of expressions.
//
// `codegen_from_expr` is shown to do what `codegenFromExpr` of `rules` does, for the expression that the node table holds. It calls itself on
// the operands; their nodes stand behind, so the nodes that remain fall. A caller owes the table and room (`Ready`).
//
// A child is named by its node's number, since the tree stands in a lent table and there is no heap. The file, the nodes and the lent
// tables stay parameters of their own: leaves take the file alone, and a struct of lent tables would say of each function that it keeps
// those that it does not touch.
#![tactic(auto)]

pub mod leaves;

ghost use Rattle.std.specs.Prelude.{ℕ, ◌≤◌, length, ◌^◌};
ghost use Rattle.rules.specs.Constants.{nameBits};
ghost use Rattle.rules.specs.Tree.{Expr};
ghost use Rattle.nodes.specs.Holds.{HoldsE};
ghost use Rattle.codegen.specs.Does.{lent};
ghost use Rattle.exprs.specs.Exprs.{Ready, Lowers};

use codegen::operators::{Binop, Unop, codegen_from_binop, codegen_from_unop, copy_valreg};
use codegen::state::{Counters, Got};
use leaves::codegen_from_leaf;
use nodes::kinds::NodeKind;
use nodes::node::Node;
use words::instr::ValReg;

// The value register of the expression at node i. In a Binop the right operand is lowered and copied before the left; it begins where the
// left one ends.
pub fn codegen_from_expr(
    s: &[u8],
    nodes: &[u64],
    instrs: &mut [u64],
    numbers: &mut [i64],
    strings: &mut [u32],
    pool: &mut [u8],
    names: &mut [u16],
    i: usize,
    c: Counters,
) -> Got<ValReg>
    requires { Ready s.now nodes.now i c (length instrs.old) (length numbers.old) (length strings.old) (length pool.old) (length names.old) }
    ensures { (m : ℕ) (e : Expr) (j : ℕ) → m ≤ 2 ^ nameBits → HoldsE nodes.now s.now m i e j → Lowers m e c (lent instrs.old numbers.old strings.old pool.old names.old) (lent instrs.new numbers.new strings.new pool.new names.new) result.reg.0 result.next }
{
    let node = Node(nodes[i]);
    if node.is(NodeKind::Binop) {
        let op = Binop::of(node.op());
        let h = i + 1;
        let right = Node(nodes[h]).last();
        let r = codegen_from_expr(s, nodes, instrs, numbers, strings, pool, names, right, c);
        let x = copy_valreg(instrs, r.next, r.reg);
        let l = codegen_from_expr(s, nodes, instrs, numbers, strings, pool, names, h, x.next);
        return codegen_from_binop(instrs, numbers, l.next, l.reg, op, x.reg);
    }
    if node.is(NodeKind::Unop) {
        let op = Unop::of(node.op());
        let r = codegen_from_expr(s, nodes, instrs, numbers, strings, pool, names, i + 1, c);
        return codegen_from_unop(instrs, numbers, r.next, op, r.reg);
    }
    codegen_from_leaf(s, instrs, numbers, strings, pool, names, node, c)
}
