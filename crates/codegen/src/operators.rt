// What is emitted for an operator on registers, as in yogi's codegen.rs.
//
// Each function is shown to do what the step of its name in `rules` (Operators) does, and to take so many instructions. A caller owes
// room (`Room`) for them, and an opcode of the shape that is emitted (`Shape`).
// An instruction is named by its opcode, a number (words: instr). Each lent table is a parameter of its own: a struct of them would say of each
// function that it keeps those that it does not touch.
ghost use Rattle.rules.specs.Constants.{mostCount};
ghost use Rattle.std.proofs.Math.Option.{some};
ghost use Rattle.laws.specs.Table.{isPlace};
ghost use Rattle.std.specs.Prelude.{◌≡◌, refl, false, ℕ, ◌+◌, ◌≤◌, ◌<◌, length, get_or};
ghost use Rattle.rules.specs.Tree as Tree;
ghost use Rattle.rules.specs.Opcode as Op;
ghost use Rattle.rules.specs.Instr.{canRuntimeErr, ins₂, unused, num, val};
ghost use Rattle.rules.specs.Parse.{binops, unops};
ghost use Rattle.rules.specs.CodegenData.{emit as emitS};
ghost use Rattle.rules.specs.Operators.{copyValreg, makeTruthy, numberify as numberifyS, makeVal, makeLogicBinop, makeArithBinop, makeCmpBinop, makeNe, applyInPlace, applyBinop, makeNot, applyInNumber, applyUnop, incdecOp, codegenIncdec, guard};
ghost use Rattle.words.specs.Told.{Shape};
ghost use Rattle.codegen.specs.Does.{◌▷◌, DoesCode, DoesBoth, DoesNamed, makeNum};
ghost use Rattle.codegen.specs.Shapes.{num-to-val, str-to-val, val-to-val};
ghost use Rattle.codegen.specs.Costs.{Spent, Room, guardCost, binopCost, unopCost};
ghost use Rattle.codegen.specs.Told.{binopTold, unopTold};

use crate::state::{Counters, Got, add_jmperr, emit, get_variable, new_num, new_val};
use words::instr::{Instruction, NumReg, Operand, StrReg, ValReg};

// Operators, in the order of their numbers in a tree file.
#[derive(Clone, Copy)]
pub enum Binop {
    And,
    Or,
    Add,
    Sub,
    Mul,
    Div,
    Mod,
    Pow,
    Eq,
    Ne,
    Le,
    Lt,
    Ge,
    Gt,
}

#[derive(Clone, Copy)]
pub enum Unop {
    Neg,
    Not,
    Abs,
    Sqrt,
    Fact,
    Sin,
    Cos,
    Tan,
    Asin,
    Acos,
    Atan,
}

// The operator of a number; one past the last counts as the last.
impl Binop {
    const ALL: [Binop; 14] = [
        Binop::And,
        Binop::Or,
        Binop::Add,
        Binop::Sub,
        Binop::Mul,
        Binop::Div,
        Binop::Mod,
        Binop::Pow,
        Binop::Eq,
        Binop::Ne,
        Binop::Le,
        Binop::Lt,
        Binop::Ge,
        Binop::Gt,
    ];

    #[tactic(auto, unfolding(rules::specs::Parse::binops))]
    pub fn of(k: u64) -> Binop
        ensures { binopTold result ≡ get_or binops k Tree.Gt }
    {
        Self::ALL.get(k as usize).copied().unwrap_or(Binop::Gt)
    }
}

impl Unop {
    const ALL: [Unop; 11] = [
        Unop::Neg,
        Unop::Not,
        Unop::Abs,
        Unop::Sqrt,
        Unop::Fact,
        Unop::Sin,
        Unop::Cos,
        Unop::Tan,
        Unop::Asin,
        Unop::Acos,
        Unop::Atan,
    ];

    #[tactic(auto, unfolding(rules::specs::Parse::unops))]
    pub fn of(k: u64) -> Unop
        ensures { unopTold result ≡ get_or unops k Tree.Atan }
    {
        Self::ALL.get(k as usize).copied().unwrap_or(Unop::Atan)
    }
}

// A register whose content is made a value by the opcode of its kind.
pub trait ToVal: Operand {
    ghost TO_VAL: { ℕ };

    const TO_VAL: u64;

    // It is an opcode of a register and a value, and no jump.
    ghost shaped: { Shape TO_VAL Self.kind val unused };

    ghost lands: { isPlace (some (Self.kind, val, unused)) ≡ false };
}

impl ToVal for NumReg {
    ghost TO_VAL = { Op.ValueifyNum };

    const TO_VAL: u64 = Instruction::VALUEIFY_NUM;

    ghost shaped = { num-to-val };

    ghost lands = { refl };
}

impl ToVal for StrReg {
    ghost TO_VAL = { Op.ValueifyStr };

    const TO_VAL: u64 = Instruction::VALUEIFY_STR;

    ghost shaped = { str-to-val };

    ghost lands = { refl };
}

impl ToVal for ValReg {
    ghost TO_VAL = { Op.CopyVal };

    const TO_VAL: u64 = Instruction::COPY_VAL;

    ghost shaped = { val-to-val };

    ghost lands = { refl };
}

// A register's content as a value.
pub fn make_val<A: ToVal>(instrs: &mut [u64], c: Counters, r: A) -> Got<ValReg>
    requires { (c.at < length instrs.old) × (c.values < mostCount) }
    ensures spent { Spent c result.next 1 0 1 0 0 }
    ensures does { DoesCode (makeVal A.TO_VAL (A.number_of r)) c instrs.old instrs.new result.reg.0 result.next }
{
    let v = new_val(c);
    let w = Instruction::of_two(A::TO_VAL, r, v.reg);
    Got {
        reg: v.reg,
        next: emit(instrs, v.next, w),
    }
}

// A copy of a value register.
#[tactic(auto, unfolding(rules::specs::Operators::copyValreg, rules::specs::Operators::makeVal))]
pub fn copy_valreg(instrs: &mut [u64], c: Counters, r: ValReg) -> Got<ValReg>
    requires { (c.at < length instrs.old) × (c.values < mostCount) }
    ensures spent { Spent c result.next 1 0 1 0 0 }
    ensures does { DoesCode (copyValreg r.0) c instrs.old instrs.new result.reg.0 result.next }
{
    make_val(instrs, c, r)
}

// A value's content as a number: an opcode of a value and a number, into a new register.
fn make_num(instrs: &mut [u64], numbers: &mut [i64], c: Counters, op: u64, r: ValReg) -> Got<NumReg>
    requires { Room c 1 1 0 (length instrs.old) (length numbers.old) × Shape op val num unused }
    ensures spent { Spent c result.next 1 1 0 0 0 }
    ensures does { DoesBoth (makeNum op r.0) c instrs.old instrs.new numbers.old numbers.new result.reg.0 result.next }
{
    let n = new_num(numbers, c, 0);
    let w = Instruction::of_two(op, r, n.reg);
    Got {
        reg: n.reg,
        next: emit(instrs, n.next, w),
    }
}

// Whether a value is truthy, as a number.
#[tactic(auto, unfolding(rules::specs::Instr::kinds, rules::specs::Instr::table, rules::specs::Operators::makeTruthy, crate::specs::Does::makeNum))]
pub fn make_truthy(instrs: &mut [u64], numbers: &mut [i64], c: Counters, r: ValReg) -> Got<NumReg>
    requires { Room c 1 1 0 (length instrs.old) (length numbers.old) }
    ensures spent { Spent c result.next 1 1 0 0 0 }
    ensures does { DoesBoth (makeTruthy r.0) c instrs.old instrs.new numbers.old numbers.new result.reg.0 result.next }
{
    make_num(instrs, numbers, c, Instruction::IS_TRUTHY_VAL, r)
}

// A value as a number, or an error.
#[tactic(auto, unfolding(rules::specs::Instr::kinds, rules::specs::Instr::table))]
pub fn numberify(instrs: &mut [u64], numbers: &mut [i64], c: Counters, r: ValReg) -> Got<NumReg>
    requires { Room c 2 1 0 (length instrs.old) (length numbers.old) }
    ensures spent { Spent c result.next 2 1 0 0 0 }
    ensures does { DoesBoth (numberifyS r.0) c instrs.old instrs.new numbers.old numbers.new result.reg.0 result.next }
{
    let n = make_num(instrs, numbers, c, Instruction::NUMBERIFY_VAL, r);
    Got {
        reg: n.reg,
        next: add_jmperr(instrs, n.next),
    }
}

// And, Or: right is made truthy before left.
pub fn make_logic_binop(
    instrs: &mut [u64],
    numbers: &mut [i64],
    c: Counters,
    op: u64,
    l: ValReg,
    r: ValReg,
) -> Got<ValReg>
    requires { Room c 4 2 1 (length instrs.old) (length numbers.old) × Shape op num num unused }
    ensures spent { Spent c result.next 4 2 1 0 0 }
    ensures does { DoesBoth (makeLogicBinop op l.0 r.0) c instrs.old instrs.new numbers.old numbers.new result.reg.0 result.next }
{
    let m = make_truthy(instrs, numbers, c, r);
    let n = make_truthy(instrs, numbers, m.next, l);
    let c1 = emit(instrs, n.next, Instruction::of_two(op, n.reg, m.reg));
    make_val(instrs, c1, n.reg)
}

// An operator of two numbers, and behind one that may fail an error jump.
fn emit_guarded(instrs: &mut [u64], c: Counters, op: u64, l: NumReg, r: NumReg) -> Counters
    requires { (c.at + 2 ≤ length instrs.old) × Shape op num num unused }
    ensures spent { Spent c result (1 + guardCost (canRuntimeErr op)) 0 0 0 0 }
    ensures does { DoesCode (emitS (ins₂ op l.0 r.0) ▷ λ _. guard (canRuntimeErr op)) c instrs.old instrs.new 0 result }
{
    let w = Instruction::of_two(op, l, r);
    let c1 = emit(instrs, c, w);
    if w.can_runtime_err() {
        return add_jmperr(instrs, c1);
    }
    c1
}

// Mul, Div, Rem, Pow: right is numberified before left.
pub fn make_arith_binop(
    instrs: &mut [u64],
    numbers: &mut [i64],
    c: Counters,
    op: u64,
    l: ValReg,
    r: ValReg,
) -> Got<ValReg>
    requires { Room c 7 2 1 (length instrs.old) (length numbers.old) × Shape op num num unused }
    ensures spent { Spent c result.next (6 + guardCost (canRuntimeErr op)) 2 1 0 0 }
    ensures does { DoesBoth (makeArithBinop op l.0 r.0) c instrs.old instrs.new numbers.old numbers.new result.reg.0 result.next }
{
    let m = numberify(instrs, numbers, c, r);
    let n = numberify(instrs, numbers, m.next, l);
    let c1 = emit_guarded(instrs, n.next, op, n.reg, m.reg);
    make_val(instrs, c1, n.reg)
}

// Eq, Le, Lt.
pub fn make_cmp_binop(
    instrs: &mut [u64],
    numbers: &mut [i64],
    c: Counters,
    op: u64,
    l: ValReg,
    r: ValReg,
) -> Got<ValReg>
    requires { Room c 2 1 1 (length instrs.old) (length numbers.old) × Shape op val val num }
    ensures spent { Spent c result.next 2 1 1 0 0 }
    ensures does { DoesBoth (makeCmpBinop op l.0 r.0) c instrs.old instrs.new numbers.old numbers.new result.reg.0 result.next }
{
    let n = new_num(numbers, c, 0);
    let c1 = emit(instrs, n.next, Instruction::of_three(op, l, r, n.reg));
    make_val(instrs, c1, n.reg)
}

// Ne: Eq, then NotNum. Its first two calls stand in `make_cmp_binop` too: a function of the two, with its room and its step, would be longer.
#[tactic(auto, unfolding(rules::specs::Instr::kinds, rules::specs::Instr::table))]
pub fn make_ne(
    instrs: &mut [u64],
    numbers: &mut [i64],
    c: Counters,
    l: ValReg,
    r: ValReg,
) -> Got<ValReg>
    requires { Room c 3 1 1 (length instrs.old) (length numbers.old) }
    ensures spent { Spent c result.next 3 1 1 0 0 }
    ensures does { DoesBoth (makeNe l.0 r.0) c instrs.old instrs.new numbers.old numbers.new result.reg.0 result.next }
{
    let n = new_num(numbers, c, 0);
    let c1 = emit(
        instrs,
        n.next,
        Instruction::of_three(Instruction::EQ, l, r, n.reg),
    );
    let c2 = emit(instrs, c1, Instruction::of_one(Instruction::NOT_NUM, n.reg));
    make_val(instrs, c2, n.reg)
}

// AddVal, SubVal: into the left operand's register.
pub fn apply_in_place(instrs: &mut [u64], c: Counters, op: u64, l: ValReg, r: ValReg) -> Got<ValReg>
    requires { (c.at < length instrs.old) × Shape op val val unused }
    ensures spent { Spent c result.next 1 0 0 0 0 }
    ensures does { DoesCode (applyInPlace op l.0 r.0) c instrs.old instrs.new result.reg.0 result.next }
{
    Got {
        reg: l,
        next: emit(instrs, c, Instruction::of_two(op, l, r)),
    }
}

// A binary operator on registers of its own. Ge is Le with right and left exchanged, Gt so with Lt.
#[tactic(auto, unfolding(rules::specs::Instr::kinds, rules::specs::Instr::table, rules::specs::Instr::canRuntimeErr, rules::specs::Operators::applyBinop, crate::specs::Costs::binopCost, crate::specs::Costs::guardCost))]
pub fn apply_binop(
    instrs: &mut [u64],
    numbers: &mut [i64],
    c: Counters,
    op: Binop,
    l: ValReg,
    r: ValReg,
) -> Got<ValReg>
    requires { Room c 7 2 1 (length instrs.old) (length numbers.old) }
    ensures spent { Spent c result.next (binopCost (binopTold op)) 2 1 0 0 }
    ensures does { DoesBoth (applyBinop (binopTold op) l.0 r.0) c instrs.old instrs.new numbers.old numbers.new result.reg.0 result.next }
{
    match op {
        Binop::And => make_logic_binop(instrs, numbers, c, Instruction::AND, l, r),
        Binop::Or => make_logic_binop(instrs, numbers, c, Instruction::OR, l, r),
        Binop::Add => apply_in_place(instrs, c, Instruction::ADD_VAL, l, r),
        Binop::Sub => apply_in_place(instrs, c, Instruction::SUB_VAL, l, r),
        Binop::Mul => make_arith_binop(instrs, numbers, c, Instruction::MUL, l, r),
        Binop::Div => make_arith_binop(instrs, numbers, c, Instruction::DIV, l, r),
        Binop::Mod => make_arith_binop(instrs, numbers, c, Instruction::REM, l, r),
        Binop::Pow => make_arith_binop(instrs, numbers, c, Instruction::POW, l, r),
        Binop::Eq => make_cmp_binop(instrs, numbers, c, Instruction::EQ, l, r),
        Binop::Ne => make_ne(instrs, numbers, c, l, r),
        Binop::Le => make_cmp_binop(instrs, numbers, c, Instruction::LE, l, r),
        Binop::Lt => make_cmp_binop(instrs, numbers, c, Instruction::LT, l, r),
        Binop::Ge => make_cmp_binop(instrs, numbers, c, Instruction::LE, r, l),
        Binop::Gt => make_cmp_binop(instrs, numbers, c, Instruction::LT, r, l),
    }
}

// The end of a Binop, whose right operand is lowered and copied: the left one is copied, and the operator applied.
pub fn codegen_from_binop(
    instrs: &mut [u64],
    numbers: &mut [i64],
    c: Counters,
    l: ValReg,
    op: Binop,
    r: ValReg,
) -> Got<ValReg>
    requires { Room c 8 2 2 (length instrs.old) (length numbers.old) }
    ensures spent { Spent c result.next (1 + binopCost (binopTold op)) 2 2 0 0 }
    ensures does { DoesBoth (copyValreg l.0 ▷ λ x. applyBinop (binopTold op) x r.0) c instrs.old instrs.new numbers.old numbers.new result.reg.0 result.next }
{
    let x = copy_valreg(instrs, c, l);
    apply_binop(instrs, numbers, x.next, op, x.reg, r)
}

// Not: of a value, without numberifying.
#[tactic(auto, unfolding(rules::specs::Instr::kinds, rules::specs::Instr::table))]
pub fn make_not(instrs: &mut [u64], numbers: &mut [i64], c: Counters, r: ValReg) -> Got<ValReg>
    requires { Room c 2 1 1 (length instrs.old) (length numbers.old) }
    ensures spent { Spent c result.next 2 1 1 0 0 }
    ensures does { DoesBoth (makeNot r.0) c instrs.old instrs.new numbers.old numbers.new result.reg.0 result.next }
{
    let n = make_num(instrs, numbers, c, Instruction::NOT_VAL, r);
    make_val(instrs, n.next, n.reg)
}

// The other unary operators: of a number, in its register.
pub fn apply_in_number(
    instrs: &mut [u64],
    numbers: &mut [i64],
    c: Counters,
    op: u64,
    r: ValReg,
) -> Got<ValReg>
    requires { Room c 4 1 1 (length instrs.old) (length numbers.old) × Shape op num unused unused }
    ensures spent { Spent c result.next 4 1 1 0 0 }
    ensures does { DoesBoth (applyInNumber op r.0) c instrs.old instrs.new numbers.old numbers.new result.reg.0 result.next }
{
    let n = numberify(instrs, numbers, c, r);
    let c1 = emit(instrs, n.next, Instruction::of_one(op, n.reg));
    make_val(instrs, c1, n.reg)
}

// A unary operator on a register of its own.
#[tactic(auto, unfolding(rules::specs::Instr::kinds, rules::specs::Instr::table, rules::specs::Operators::applyUnop, crate::specs::Costs::unopCost))]
pub fn apply_unop(
    instrs: &mut [u64],
    numbers: &mut [i64],
    c: Counters,
    op: Unop,
    r: ValReg,
) -> Got<ValReg>
    requires { Room c 4 1 1 (length instrs.old) (length numbers.old) }
    ensures spent { Spent c result.next (unopCost (unopTold op)) 1 1 0 0 }
    ensures does { DoesBoth (applyUnop (unopTold op) r.0) c instrs.old instrs.new numbers.old numbers.new result.reg.0 result.next }
{
    match op {
        Unop::Neg => apply_in_number(instrs, numbers, c, Instruction::NEG, r),
        Unop::Not => make_not(instrs, numbers, c, r),
        Unop::Abs => apply_in_number(instrs, numbers, c, Instruction::ABS, r),
        Unop::Sqrt => apply_in_number(instrs, numbers, c, Instruction::SQRT, r),
        Unop::Fact => apply_in_number(instrs, numbers, c, Instruction::FACT, r),
        Unop::Sin => apply_in_number(instrs, numbers, c, Instruction::SIN, r),
        Unop::Cos => apply_in_number(instrs, numbers, c, Instruction::COS, r),
        Unop::Tan => apply_in_number(instrs, numbers, c, Instruction::TAN, r),
        Unop::Asin => apply_in_number(instrs, numbers, c, Instruction::ASIN, r),
        Unop::Acos => apply_in_number(instrs, numbers, c, Instruction::ACOS, r),
        Unop::Atan => apply_in_number(instrs, numbers, c, Instruction::ATAN, r),
    }
}

// The end of an Unop, whose operand is lowered: it is copied, and the operator applied.
pub fn codegen_from_unop(
    instrs: &mut [u64],
    numbers: &mut [i64],
    c: Counters,
    op: Unop,
    r: ValReg,
) -> Got<ValReg>
    requires { Room c 5 1 2 (length instrs.old) (length numbers.old) }
    ensures spent { Spent c result.next (1 + unopCost (unopTold op)) 1 2 0 0 }
    ensures does { DoesBoth (copyValreg r.0 ▷ λ x. applyUnop (unopTold op) x) c instrs.old instrs.new numbers.old numbers.new result.reg.0 result.next }
{
    let x = copy_valreg(instrs, c, r);
    apply_unop(instrs, numbers, x.next, op, x.reg)
}

#[tactic(auto, unfolding(rules::specs::Operators::incdecOp))]
fn incdec_op(inc: bool) -> u64
    ensures { result ≡ incdecOp inc }
{
    if inc {
        Instruction::INC_VAL
    } else {
        Instruction::DEC_VAL
    }
}

// The name's own register is changed and handed back; an error jump follows.
pub fn codegen_incdec(
    instrs: &mut [u64],
    names: &mut [u16],
    c: Counters,
    inc: bool,
    x: usize,
) -> Got<ValReg>
    requires { (c.at + 2 ≤ length instrs.old) × (x < length names.old) × (c.values < mostCount) }
    ensures spent { Spent c result.next 2 0 1 0 0 }
    ensures does { (n : ℕ) → x < n → DoesNamed n (codegenIncdec inc x) c instrs.old instrs.new names.old names.new result.reg.0 result.next }
{
    let v = get_variable(names, c, x);
    let w = Instruction::of_one(incdec_op(inc), v.reg);
    let c1 = emit(instrs, v.next, w);
    Got {
        reg: v.reg,
        next: add_jmperr(instrs, c1),
    }
}
