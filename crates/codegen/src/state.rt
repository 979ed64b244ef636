// The counters of lowering, and the steps that change them or one lent table: an instruction, a number, string or value register, a name's
// register.
//
// Each step is shown to do what the step of its name in `rules` (CodegenData, Operators) does. A caller owes room in the table, and
// counts below 65,535. The counters are lent to the thin functions `emit_at`, `take_num`, `take_str` and `take_val`, which change them in
// their place; `emit_word`, `new_num`, `new_strreg` and `new_val` lend them and pass them on by value, in two lines each: one function for
// the four would take a closure and be no shorter. That a count is below the length of its table, and an opcode of its shape, is asked by
// clauses: the tables stand apart from the counters, and an opcode is a number.
ghost use Rattle.rules.specs.Constants.{mostCount};
ghost use Rattle.std.specs.Prelude.{◌≡◌, ℕ, ◌+◌, ◌≤◌, ◌<◌, length, set};
ghost use Rattle.rules.specs.Instr.{Instruction as Ins};
ghost use Rattle.rules.specs.CodegenData.{emit as emitS, newNum, newVal};
ghost use Rattle.rules.specs.Operators.{errorJump, getVariable};
ghost use Rattle.codegen.specs.Does.{wordTo, DoesNone, DoesCode, DoesNums, DoesNames};
ghost use Rattle.codegen.specs.Costs.{Spent, plus-instr, plus-number, plus-string, plus-value};

use params::limits::MARK;
use words::instr::{Instruction, NumReg, Section, StrReg, ValReg};

// Where the next instruction goes; how many registers there are, and characters in the pool; the line that errors go to.
#[derive(Clone, Copy)]
pub struct Counters {
    pub at: usize,
    pub numbers: u16,
    pub strings: u16,
    pub chars: u16,
    pub values: u16,
    pub err: Section,
}

// A register of one kind, and the counters after the step that gave it.
#[derive(Clone, Copy)]
pub struct Got<R> {
    pub reg: R,
    pub next: Counters,
}

// An instruction behind the others, in lent counters.
pub fn emit_at(instrs: &mut [u64], c: &mut Counters, w: Instruction)
    requires { c.old.at < length instrs.old }
    ensures { (instrs.new ≡ set instrs.old c.old.at w.0) × (c.new ≡ plus-instr c.old) }
{
    instrs[c.at] = w.0;
    c.at += 1;
}

// A number register that starts as z, in lent counters.
pub fn take_num(numbers: &mut [i64], c: &mut Counters, z: i64) -> NumReg
    requires { (c.old.numbers < length numbers.old) × (c.old.numbers < mostCount) }
    ensures { (result.0 ≡ c.old.numbers) × (numbers.new ≡ set numbers.old c.old.numbers z) × (c.new ≡ plus-number c.old) }
{
    let reg = NumReg(c.numbers);
    numbers[usize::from(reg.0)] = z;
    c.numbers += 1;
    reg
}

// A string register of n characters, in lent counters.
pub fn take_str(c: &mut Counters, n: u16) -> StrReg
    requires { (c.old.strings < mostCount) × (c.old.chars + n ≤ mostCount) }
    ensures { (result.0 ≡ c.old.strings) × (c.new ≡ plus-string n c.old) }
{
    let reg = StrReg(c.strings);
    c.strings += 1;
    c.chars += n;
    reg
}

// A value register, in lent counters.
pub fn take_val(c: &mut Counters) -> ValReg
    requires { c.old.values < mostCount }
    ensures { (result.0 ≡ c.old.values) × (c.new ≡ plus-value c.old) }
{
    let reg = ValReg(c.values);
    c.values += 1;
    reg
}

// A word behind the other instructions, whatever it is.
pub fn emit_word(instrs: &mut [u64], c: Counters, w: Instruction) -> Counters
    requires { c.at < length instrs.old }
    ensures { (instrs.new ≡ set instrs.old c.at w.0) × (result ≡ plus-instr c) }
{
    let mut d = c;
    emit_at(instrs, &mut d, w);
    d
}

// An instruction behind the others.
#[tactic(auto, using(crate::proofs::Laws::emit_does))]
pub fn emit(instrs: &mut [u64], c: Counters, w: Instruction) -> Counters
    requires { c.at < length instrs.old }
    ensures spent { Spent c result 1 0 0 0 0 }
    ensures does { (i : Ins) → w.0 ≡ wordTo c.err.0 i → DoesCode (emitS i) c instrs.old instrs.new 0 result }
{
    emit_word(instrs, c, w)
}

// A number register that starts as z.
pub fn new_num(numbers: &mut [i64], c: Counters, z: i64) -> Got<NumReg>
    requires { (c.numbers < length numbers.old) × (c.numbers < mostCount) }
    ensures spent { Spent c result.next 0 1 0 0 0 }
    ensures does { DoesNums (newNum z) c numbers.old numbers.new result.reg.0 result.next }
{
    let mut d = c;
    let reg = take_num(numbers, &mut d, z);
    Got { reg, next: d }
}

// A string register of n characters.
pub fn new_strreg(c: Counters, n: u16) -> Got<StrReg>
    requires { (c.strings < mostCount) × (c.chars + n ≤ mostCount) }
    ensures { (result.reg.0 ≡ c.strings) × (result.next ≡ plus-string n c) }
{
    let mut d = c;
    let reg = take_str(&mut d, n);
    Got { reg, next: d }
}

// A value register.
pub fn new_val(c: Counters) -> Got<ValReg>
    requires { c.values < mostCount }
    ensures spent { Spent c result.next 0 0 1 0 0 }
    ensures does { DoesNone newVal c result.reg.0 result.next }
{
    let mut d = c;
    let reg = take_val(&mut d);
    Got { reg, next: d }
}

// A name's value register: a new one where it is met for the first time.
// A name without one is MARK and no Option: its word stands in a lent table of fixed memory.
pub fn get_variable(names: &mut [u16], c: Counters, x: usize) -> Got<ValReg>
    requires { (x < length names.old) × (c.values < mostCount) }
    ensures spent { Spent c result.next 0 0 1 0 0 }
    ensures does { (n : ℕ) → x < n → DoesNames n (getVariable x) c names.old names.new result.reg.0 result.next }
{
    let v = names[x];
    if v != MARK {
        return Got {
            reg: ValReg(v),
            next: c,
        };
    }
    let n = new_val(c);
    names[x] = n.reg.0;
    n
}

// An error jump, to the next line.
pub fn add_jmperr(instrs: &mut [u64], c: Counters) -> Counters
    requires { c.at < length instrs.old }
    ensures spent { Spent c result 1 0 0 0 0 }
    ensures does { DoesCode (emitS errorJump) c instrs.old instrs.new 0 result }
{
    emit(instrs, c, Instruction::jump_if_error(c.err))
}
