// The own instructions of a statement: of an Assign, of a Goto's line and of an Ite's condition.
//
// Each function is shown to do what the step of its name in `rules` (Annotate) does, for the expression that the node table holds. A caller
// owes the table and room (`Holding`).
//
// The file, the nodes and the six lent tables stay parameters of their own, here and in the crates above: a struct of lent tables would say of
// each function that it keeps those that it does not touch. So what is owed of them is asked by clauses.
ghost use Rattle.std.specs.Prelude.{◌≡◌, ℕ, ◌+◌, ◌^◌, ◌≤◌, ◌<◌, length, get_or};
ghost use Rattle.rules.specs.Constants.{nameBits};
ghost use Rattle.rules.specs.Tree as Tree;
ghost use Rattle.rules.specs.Instr.{canRuntimeErr, unused, num};
ghost use Rattle.rules.specs.Parse.{assignops};
ghost use Rattle.rules.specs.Operators.{makeArithBinop};
ghost use Rattle.rules.specs.Annotate.{store as storeS, assignBy, codegenFromAssign, condition as conditionS, lineNumber};
ghost use Rattle.nodes.specs.Holds.{HoldsE};
ghost use Rattle.words.specs.Told.{Shape};
ghost use Rattle.codegen.specs.Does.{lent, DoesBoth};
ghost use Rattle.codegen.specs.Costs.{Spent, Room, guardCost};
ghost use Rattle.stmts.specs.Told.{assignTold, assignCost};
ghost use Rattle.exprs.specs.Exprs.{LowersTo};
ghost use Rattle.stmts.specs.Own.{Holding, Setting};

use codegen::operators::{make_arith_binop, make_truthy, numberify};
use codegen::state::{Counters, Got, emit, get_variable};
use exprs::codegen_from_expr;
use words::instr::{Instruction, NumReg, ValReg};

// The operator of an assignment, in the order of the file's numbers.
#[derive(Clone, Copy)]
pub enum Assignop {
    Plain,
    AddTo,
    SubTo,
    MulTo,
    DivTo,
    ModTo,
    PowTo,
}

// The operator of a number in a tree file; one past the last counts as the last.
impl Assignop {
    const ALL: [Assignop; 7] = [
        Assignop::Plain,
        Assignop::AddTo,
        Assignop::SubTo,
        Assignop::MulTo,
        Assignop::DivTo,
        Assignop::ModTo,
        Assignop::PowTo,
    ];

    #[tactic(auto, unfolding(rules::specs::Parse::assignops))]
    pub fn of(k: u64) -> Assignop
        ensures { assignTold result ≡ get_or assignops k Tree.PowTo }
    {
        Self::ALL
            .get(k as usize)
            .copied()
            .unwrap_or(Assignop::PowTo)
    }
}

// An operator's result goes back into the variable.
#[tactic(auto, unfolding(rules::specs::Instr::kinds, rules::specs::Instr::table))]
fn store(
    instrs: &mut [u64],
    numbers: &mut [i64],
    c: Counters,
    op: u64,
    v: ValReg,
    e: ValReg,
) -> Counters
    requires { Room c 8 2 1 (length instrs.old) (length numbers.old) × Shape op num num unused }
    ensures spent { Spent c result (7 + guardCost (canRuntimeErr op)) 2 1 0 0 }
    ensures does { DoesBoth (storeS (makeArithBinop op v.0 e.0) v.0) c instrs.old instrs.new numbers.old numbers.new 0 result }
{
    let o = make_arith_binop(instrs, numbers, c, op, v, e);
    emit(
        instrs,
        o.next,
        Instruction::of_two(Instruction::COPY_VAL, o.reg, v),
    )
}

// The value e is assigned to the variable v.
#[tactic(auto, unfolding(rules::specs::Instr::kinds, rules::specs::Instr::table, rules::specs::Instr::canRuntimeErr, codegen::specs::Costs::guardCost, crate::specs::Told::assignCost))]
pub fn assign_by(
    instrs: &mut [u64],
    numbers: &mut [i64],
    c: Counters,
    op: Assignop,
    v: ValReg,
    e: ValReg,
) -> Counters
    requires { Room c 8 2 1 (length instrs.old) (length numbers.old) }
    ensures spent { Spent c result (assignCost (assignTold op)) 2 1 0 0 }
    ensures does { DoesBoth (assignBy (assignTold op) v.0 e.0) c instrs.old instrs.new numbers.old numbers.new 0 result }
{
    match op {
        Assignop::Plain => emit(instrs, c, Instruction::of_two(Instruction::COPY_VAL, e, v)),
        Assignop::AddTo => emit(instrs, c, Instruction::of_two(Instruction::ADD_VAL, v, e)),
        Assignop::SubTo => emit(instrs, c, Instruction::of_two(Instruction::SUB_VAL, v, e)),
        Assignop::MulTo => store(instrs, numbers, c, Instruction::MUL, v, e),
        Assignop::DivTo => store(instrs, numbers, c, Instruction::DIV, v, e),
        Assignop::ModTo => store(instrs, numbers, c, Instruction::REM, v, e),
        Assignop::PowTo => store(instrs, numbers, c, Instruction::POW, v, e),
    }
}

// An Assign to the name x by the operator op: its expression, at node i, is lowered before its name is met.
pub fn codegen_from_assign(
    s: &[u8],
    nodes: &[u64],
    instrs: &mut [u64],
    numbers: &mut [i64],
    strings: &mut [u32],
    pool: &mut [u8],
    names: &mut [u16],
    i: usize,
    c: Counters,
    x: usize,
    op: Assignop,
) -> Counters
    requires { Setting s.now nodes.now i c x (length instrs.old) (length numbers.old) (length strings.old) (length pool.old) (length names.old) }
    ensures { (m : ℕ) (e : Tree.Expr) (j : ℕ) → m ≤ 2 ^ nameBits → x < m → HoldsE nodes.now s.now m i e j → LowersTo (codegenFromAssign x (assignTold op) e) m e (assignCost (assignTold op)) 2 2 c (lent instrs.old numbers.old strings.old pool.old names.old) (lent instrs.new numbers.new strings.new pool.new names.new) 0 result }
{
    let e = codegen_from_expr(s, nodes, instrs, numbers, strings, pool, names, i, c);
    let v = get_variable(names, e.next, x);
    assign_by(instrs, numbers, v.next, op, v.reg, e.reg)
}

// A Goto's line, as a number register. It and `condition` stay apart: each is one step behind the expression, and a step that is passed in
// would bring its whole contract.
pub fn line_number(
    s: &[u8],
    nodes: &[u64],
    instrs: &mut [u64],
    numbers: &mut [i64],
    strings: &mut [u32],
    pool: &mut [u8],
    names: &mut [u16],
    i: usize,
    c: Counters,
) -> Got<NumReg>
    requires { Holding s.now nodes.now i c 2 1 0 (length instrs.old) (length numbers.old) (length strings.old) (length pool.old) (length names.old) }
    ensures { (m : ℕ) (e : Tree.Expr) (j : ℕ) → m ≤ 2 ^ nameBits → HoldsE nodes.now s.now m i e j → LowersTo (lineNumber e) m e 2 1 0 c (lent instrs.old numbers.old strings.old pool.old names.old) (lent instrs.new numbers.new strings.new pool.new names.new) result.reg.0 result.next }
{
    let e = codegen_from_expr(s, nodes, instrs, numbers, strings, pool, names, i, c);
    numberify(instrs, numbers, e.next, e.reg)
}

// An Ite's condition, as a number register.
pub fn condition(
    s: &[u8],
    nodes: &[u64],
    instrs: &mut [u64],
    numbers: &mut [i64],
    strings: &mut [u32],
    pool: &mut [u8],
    names: &mut [u16],
    i: usize,
    c: Counters,
) -> Got<NumReg>
    requires { Holding s.now nodes.now i c 1 1 0 (length instrs.old) (length numbers.old) (length strings.old) (length pool.old) (length names.old) }
    ensures { (m : ℕ) (e : Tree.Expr) (j : ℕ) → m ≤ 2 ^ nameBits → HoldsE nodes.now s.now m i e j → LowersTo (conditionS e) m e 1 1 0 c (lent instrs.old numbers.old strings.old pool.old names.old) (lent instrs.new numbers.new strings.new pool.new names.new) result.reg.0 result.next }
{
    let e = codegen_from_expr(s, nodes, instrs, numbers, strings, pool, names, i, c);
    make_truthy(instrs, numbers, e.next, e.reg)
}
