// How many instructions the nodes of a range give, from their words alone.
//
// Each function is shown equal to a definition of specs/Costs; the own instructions of a statement are as many as lowering emits (`ownCost` of
// `stmts`). A caller owes a range within the table.
ghost use Rattle.std.specs.Prelude.{◌≡◌, List, sum_by, ℕ, ◌-◌, ◌≤◌, ◌<◌, length, get_or, ◌^◌};
ghost use Rattle.rules.specs.Tree.{Block};
ghost use Rattle.rules.specs.Constants.{mostBytes, nameBits, mostNodes};
ghost use Rattle.nodes.specs.Holds.{HoldsB};
ghost use Rattle.codegen.specs.Costs.{binopCost, unopCost};
ghost use Rattle.codegen.specs.Told.{binopTold, unopTold};
ghost use Rattle.stmts.specs.Told.{assignTold, assignCost};
ghost use Rattle.stmts.specs.Parts.{ownCost};
ghost use Rattle.line.specs.Costs.{nodeCost, costs, SomeAt};

use codegen::operators::{Binop, Unop};
use nodes::kinds::NodeKind;
use nodes::node::Node;
use stmts::own::Assignop;

// Of an operator.

#[tactic(auto, unfolding(codegen::specs::Costs::binopCost))]
fn binop_cost(op: Binop) -> usize
    ensures is { result ≡ binopCost (binopTold op) }
    ensures most { result ≤ 7 }
{
    match op {
        Binop::Add | Binop::Sub => 1,
        Binop::Eq | Binop::Le | Binop::Lt | Binop::Ge | Binop::Gt => 2,
        Binop::Ne => 3,
        Binop::And | Binop::Or => 4,
        Binop::Mul | Binop::Pow => 6,
        Binop::Div | Binop::Mod => 7,
    }
}

#[tactic(auto, unfolding(codegen::specs::Costs::unopCost))]
fn unop_cost(op: Unop) -> usize
    ensures is { result ≡ unopCost (unopTold op) }
    ensures most { result ≤ 4 }
{
    match op {
        Unop::Not => 2,
        _ => 4,
    }
}

#[tactic(auto, unfolding(stmts::specs::Told::assignCost))]
fn assign_cost(op: Assignop) -> usize
    ensures is { result ≡ assignCost (assignTold op) }
    ensures most { result ≤ 8 }
{
    match op {
        Assignop::Plain | Assignop::AddTo | Assignop::SubTo => 1,
        Assignop::MulTo | Assignop::PowTo => 7,
        Assignop::DivTo | Assignop::ModTo => 8,
    }
}

// Of a node without its operands and lists. Its kind is asked for as `nodeCost` asks: a match would first make a kind of its number, or none.
#[tactic(auto, unfolding(crate::specs::Costs::nodeCost, crate::specs::Costs::kindCost, stmts::specs::Makes::jumpCost))]
pub fn node_cost(node: Node) -> usize
    ensures is { result ≡ nodeCost node.0 }
    ensures most { result ≤ 9 }
{
    if node.is(NodeKind::Binop) {
        return 2 + binop_cost(Binop::of(node.op()));
    }
    if node.is(NodeKind::Unop) {
        return 1 + unop_cost(Unop::of(node.op()));
    }
    if node.is(NodeKind::Assign) {
        return assign_cost(Assignop::of(node.op()));
    }
    if node.is(NodeKind::Ident) {
        return 0;
    }
    let leaf = node.is(NodeKind::Number) || node.is(NodeKind::String);
    let straight = node.is(NodeKind::Ite) && node.name() == 0;
    if leaf || straight { 1 } else { 2 }
}

// Of some nodes.
fn all_costs(nodes: &[u64]) -> usize
    requires { length nodes.now ≤ mostNodes }
    ensures { result ≡ sum_by nodeCost nodes.now }
{
    nodes.iter().map(|&w| node_cost(Node(w))).sum()
}

// Of the nodes from i up to `end`. The range stands beside the slice: `costs` is of the lent table and a range, as nodes name each other by place.
#[tactic(auto, using(crate::proofs::Sums::costs_sum))]
pub fn sum_costs(nodes: &[u64], i: usize, end: usize) -> usize
    requires { (i ≤ end) × (end ≤ length nodes.now) × (end ≤ mostNodes) }
    ensures { result ≡ costs nodes.now i (end - i) }
{
    all_costs(&nodes[i..end])
}

// Of the first statement of the list at node i, without the lists that it holds: an Ite's condition ends where its first node says.
pub fn own_cost(nodes: &[u64], i: usize) -> usize
    requires { SomeAt nodes.now i }
    ensures { (s : List ℕ) (m n : ℕ) (x : Block) (z : ℕ) → length s ≤ mostBytes → m ≤ 2 ^ nameBits → 0 < n → HoldsB nodes.now s m n i x z → result ≡ ownCost x }
{
    let node = Node(nodes[i]);
    if node.is(NodeKind::Ite) {
        return sum_costs(nodes, i, Node(nodes[i + 1]).last());
    }
    sum_costs(nodes, i, node.last())
}
