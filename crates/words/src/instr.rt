// Registers, section numbers and instructions, as in yogi's instr.rs; an instruction is one word.
//
// Each function is shown equal to the definition of its name in `rules`, through the maps of specs/Told. The functions on a word hold for
// every u64. Only the packing of an opcode asks anything: that its fields are of the kinds that are packed.
ghost use Rattle.std.specs.Prelude.{◌≡◌, ◌<◌, ℕ};
ghost use Rattle.std.proofs.Math.ListN.{get_elem?};
ghost use Rattle.rules.specs.Opcode as Op;
ghost use Rattle.rules.specs.Instr as Instr;
ghost use Rattle.rules.specs.Word.{insWord, wordIns, insSpare};
ghost use Rattle.rules.specs.Replace.{rules, lookup, ruleOf};
ghost use Rattle.words.specs.Told as Told;

use crate::number::Number;
use Flow::{Compared, FromTo, Itself, Nothing, Tested, Two};
use Kind::{Num, Place, Str, Unused, Val};

// Registers and sections are numbers of one form and four types, so that none is taken for another; what they share is `Operand`.

// A number register.
#[derive(Clone, Copy, PartialEq, Eq)]
pub struct NumReg(pub u16);

// A string register.
#[derive(Clone, Copy)]
pub struct StrReg(pub u16);

// A value register.
#[derive(Clone, Copy)]
pub struct ValReg(pub u16);

// A register of any kind.
#[derive(Clone, Copy)]
pub enum AnyReg {
    Num(NumReg),
    Str(StrReg),
    Val(ValReg),
}

// A section's number.
#[derive(Clone, Copy, PartialEq, Eq)]
pub struct Section(pub u16);

// What a field of an instruction may hold: a register of one kind, or the section of a jump.
pub trait Operand: Copy {
    // The kind of its fields, and its number.
    ghost kind: { Instr.Kind };

    ghost number_of: { Self → ℕ };

    fn number(self) -> u16
        ensures { result ≡ number_of self };
}

impl Operand for NumReg {
    ghost kind = { Instr.num };

    ghost number_of = { λ r. r.0 };

    fn number(self) -> u16 {
        self.0
    }
}

impl Operand for StrReg {
    ghost kind = { Instr.str };

    ghost number_of = { λ r. r.0 };

    fn number(self) -> u16 {
        self.0
    }
}

impl Operand for ValReg {
    ghost kind = { Instr.val };

    ghost number_of = { λ r. r.0 };

    fn number(self) -> u16 {
        self.0
    }
}

impl Operand for Section {
    ghost kind = { Instr.place };

    ghost number_of = { λ s. s.0 };

    fn number(self) -> u16 {
        self.0
    }
}

// What a field holds: nothing, a register, or the section of a jump.
#[derive(Clone, Copy, PartialEq, Eq)]
pub enum Kind {
    Unused,
    Num,
    Str,
    Val,
    Place,
}

// What is read and modified: nothing; the second is read; the first is read and modified; the first is read, the second modified;
// both are read, the first modified; both are read, the third modified.
#[derive(Clone, Copy)]
pub enum Flow {
    Nothing,
    Tested,
    Itself,
    FromTo,
    Two,
    Compared,
}

// The kinds of an opcode's three fields, and what it does with them.
#[derive(Clone, Copy)]
pub struct Fields(pub Kind, pub Kind, pub Kind, pub Flow);

// The registers that are read, in order: the first `count` of the two. They are two at most, where yogi has an ArrayVec: a list wants a heap.
#[derive(Clone, Copy)]
pub struct Reads {
    pub count: u64,
    pub first: AnyReg,
    pub second: AnyReg,
}

// What becomes of an opcode whose first two fields are one register: it stays, it goes, another opcode takes the register, a copy of
// an added number into the register or into the result, a copy of an added empty string into the register.
#[derive(Clone, Copy)]
pub enum DupRule {
    Stays,
    Goes,
    Turns(u64),
    Number(Number),
    Result(Number),
    Blank,
}

// What becomes of an instruction: it stays, it goes, another takes its place, a copy of an added number, a copy of an added empty string.
#[derive(Clone, Copy)]
pub enum Replaced {
    Stays,
    Goes,
    Turns(Instruction),
    Number(Number, NumReg),
    Blank(StrReg),
}

// A number above a removed one falls by one.
pub fn fall(removed: u16, n: u16) -> u16
    ensures { result ≡ Instr.fall removed n }
{
    if removed < n { n - 1 } else { n }
}

impl Kind {
    #[tactic(auto, unfolding(rules::specs::Instr::kindNumber))]
    pub fn number(self) -> u64
        ensures { result ≡ Instr.kindNumber (Told.kindTold self) }
    {
        self as u64
    }
}

impl AnyReg {
    // The register of a kind; a kind of no register counts as a number's.
    fn of(kind: Kind, n: u16) -> AnyReg
        ensures { Told.regTold result ≡ (Told.regKind (Told.kindTold kind), n) }
    {
        match kind {
            Kind::Str => AnyReg::Str(StrReg(n)),
            Kind::Val => AnyReg::Val(ValReg(n)),
            _ => AnyReg::Num(NumReg(n)),
        }
    }

    pub fn kind(self) -> Kind
        ensures { Told.kindTold result ≡ (Told.regTold self).0 }
    {
        match self {
            AnyReg::Num(_) => Kind::Num,
            AnyReg::Str(_) => Kind::Str,
            AnyReg::Val(_) => Kind::Val,
        }
    }

    pub fn number(self) -> u16
        ensures { result ≡ (Told.regTold self).1 }
    {
        match self {
            AnyReg::Num(r) => r.0,
            AnyReg::Str(r) => r.0,
            AnyReg::Val(r) => r.0,
        }
    }

    // A field after the removal of this register: it falls if it is of the register's kind.
    #[tactic(auto, unfolding(rules::specs::Instr::fallOf))]
    fn fall_of(self, kind: Kind, n: u16) -> u16
        ensures { result ≡ Instr.fallOf (Told.regTold self).0 (Told.regTold self).1 (Told.kindTold kind) n }
    {
        if self.kind() == kind {
            fall(self.number(), n)
        } else {
            n
        }
    }
}

impl Reads {
    fn none() -> Reads
        ensures { Told.readsTold result ≡ Told.counted Told.nothing }
    {
        let filler = AnyReg::Num(NumReg(0));
        Reads {
            count: 0,
            first: filler,
            second: filler,
        }
    }

    fn one(reg: AnyReg) -> Reads
        ensures { Told.readsTold result ≡ Told.counted (Told.just (Told.regTold reg)) }
    {
        Reads {
            count: 1,
            first: reg,
            second: reg,
        }
    }

    fn two(first: AnyReg, second: AnyReg) -> Reads
        ensures { Told.readsTold result ≡ Told.counted (Told.both (Told.regTold first) (Told.regTold second)) }
    {
        Reads {
            count: 2,
            first,
            second,
        }
    }
}

// An instruction's word: opcode (6 bits), three fields (16 each), 10 zero bits. Unused fields are 0.
#[derive(Clone, Copy)]
pub struct Instruction(pub u64);

// The opcodes, in yogi's order. They are numbers and no enum: a word that is handed in has any number, and one decision with ranges takes it (`fields`).
impl Instruction {
    pub const JUMP_SECTION_IF: u64 = 0;

    pub const JUMP_IF_ERROR: u64 = 1;

    pub const COPY_NUM: u64 = 2;

    pub const COPY_STR: u64 = 3;

    pub const COPY_VAL: u64 = 4;

    pub const VALUEIFY_NUM: u64 = 5;

    pub const VALUEIFY_STR: u64 = 6;

    pub const NUMBERIFY_VAL: u64 = 7;

    pub const STRINGIFY_NUM: u64 = 8;

    pub const STRINGIFY_VAL: u64 = 9;

    pub const IS_TRUTHY_NUM: u64 = 10;

    pub const IS_TRUTHY_VAL: u64 = 11;

    pub const NOT_NUM: u64 = 12;

    pub const NOT_VAL: u64 = 13;

    pub const ADD_NUM: u64 = 14;

    pub const ADD_SELF_NUM: u64 = 15;

    pub const ADD_STR: u64 = 16;

    pub const ADD_SELF_STR: u64 = 17;

    pub const ADD_VAL: u64 = 18;

    pub const ADD_SELF_VAL: u64 = 19;

    pub const SUB_NUM: u64 = 20;

    pub const SUB_STR: u64 = 21;

    pub const SUB_VAL: u64 = 22;

    pub const SUB_SELF_VAL: u64 = 23;

    pub const MUL: u64 = 24;

    pub const MUL_SELF: u64 = 25;

    pub const DIV: u64 = 26;

    pub const DIV_SELF: u64 = 27;

    pub const REM: u64 = 28;

    pub const REM_SELF: u64 = 29;

    pub const POW: u64 = 30;

    pub const POW_SELF: u64 = 31;

    pub const EQ: u64 = 32;

    pub const LE: u64 = 33;

    pub const LT: u64 = 34;

    pub const INC_NUM: u64 = 35;

    pub const INC_STR: u64 = 36;

    pub const INC_VAL: u64 = 37;

    pub const DEC_NUM: u64 = 38;

    pub const DEC_STR: u64 = 39;

    pub const DEC_VAL: u64 = 40;

    pub const ABS: u64 = 41;

    pub const FACT: u64 = 42;

    pub const SQRT: u64 = 43;

    pub const SIN: u64 = 44;

    pub const COS: u64 = 45;

    pub const TAN: u64 = 46;

    pub const ASIN: u64 = 47;

    pub const ACOS: u64 = 48;

    pub const ATAN: u64 = 49;

    pub const NEG: u64 = 50;

    pub const AND: u64 = 51;

    pub const OR: u64 = 52;
}

// Packing, a function for each number of operands.
impl Instruction {
    #[tactic(auto, unfolding(rules::specs::Word::insWord))]
    fn word(op: u64, fst: u16, snd: u16, thd: u16) -> Instruction
        requires { op < 64 }
        ensures { result.0 ≡ insWord (Instr.ins₃ op fst snd thd) }
    {
        let low = (u64::from(snd) << 26) + (u64::from(thd) << 10);
        Instruction((op << 58) + (u64::from(fst) << 42) + low)
    }

    #[tactic(auto, unfolding(rules::specs::Instr::kinds, rules::specs::Instr::table))]
    pub fn jump_section_if(target: Section, test: NumReg) -> Instruction
        ensures { result.0 ≡ insWord (Instr.ins₂ Op.JumpSectionIf target.0 test.0) }
    {
        Self::of_two(Self::JUMP_SECTION_IF, target, test)
    }

    #[tactic(auto, unfolding(rules::specs::Instr::kinds, rules::specs::Instr::table))]
    pub fn jump_if_error(target: Section) -> Instruction
        ensures { result.0 ≡ insWord (Instr.ins₁ Op.JumpIfError target.0) }
    {
        Self::of_one(Self::JUMP_IF_ERROR, target)
    }

    // An opcode on one operand, on two and on three.

    #[tactic(auto, using(crate::proofs::Laws::opcodes))]
    pub fn of_one<A: Operand>(op: u64, fst: A) -> Instruction
        requires { Told.Shape op A.kind Instr.unused Instr.unused }
        ensures { result.0 ≡ insWord (Instr.ins₁ op (A.number_of fst)) }
    {
        Self::word(op, fst.number(), 0, 0)
    }

    #[tactic(auto, using(crate::proofs::Laws::opcodes))]
    pub fn of_two<A: Operand, B: Operand>(op: u64, fst: A, snd: B) -> Instruction
        requires { Told.Shape op A.kind B.kind Instr.unused }
        ensures { result.0 ≡ insWord (Instr.ins₂ op (A.number_of fst) (B.number_of snd)) }
    {
        Self::word(op, fst.number(), snd.number(), 0)
    }

    #[tactic(auto, using(crate::proofs::Laws::opcodes))]
    pub fn of_three<A: Operand, B: Operand, C: Operand>(
        op: u64,
        fst: A,
        snd: B,
        thd: C,
    ) -> Instruction
        requires { Told.Shape op A.kind B.kind C.kind }
        ensures { result.0 ≡ insWord (Instr.ins₃ op (A.number_of fst) (B.number_of snd) (C.number_of thd)) }
    {
        Self::word(op, fst.number(), snd.number(), thd.number())
    }
}

// Unpacking. Each field's place and width are written where it is read: a function over both would ask that the field lies in the word.
impl Instruction {
    #[tactic(auto, unfolding(rules::specs::Word::wordIns))]
    pub fn op(self) -> u64
        ensures { result ≡ (wordIns self.0).op }
    {
        self.0 >> 58
    }

    #[tactic(auto, unfolding(rules::specs::Word::wordIns))]
    pub fn fst(self) -> u16
        ensures { result ≡ (wordIns self.0).fst }
    {
        ((self.0 >> 42) % 65536) as u16
    }

    #[tactic(auto, unfolding(rules::specs::Word::wordIns))]
    pub fn snd(self) -> u16
        ensures { result ≡ (wordIns self.0).snd }
    {
        ((self.0 >> 26) % 65536) as u16
    }

    #[tactic(auto, unfolding(rules::specs::Word::wordIns))]
    pub fn thd(self) -> u16
        ensures { result ≡ (wordIns self.0).thd }
    {
        ((self.0 >> 10) % 65536) as u16
    }

    // The bits that must be zero.
    #[tactic(auto, unfolding(rules::specs::Word::insSpare))]
    pub fn spare(self) -> u64
        ensures { result ≡ insSpare self.0 }
    {
        self.0 % 1024
    }

    // The word of its fields alone.
    #[tactic(auto, using(crate::proofs::Laws::opcodes))]
    pub fn plain(self) -> Instruction
        ensures { result.0 ≡ insWord (wordIns self.0) }
    {
        Self::word(self.op(), self.fst(), self.snd(), self.thd())
    }
}

impl Instruction {
    // What each opcode's fields hold, and what it does with them.
    #[tactic(auto, unfolding(rules::specs::Instr::table, rules::specs::Instr::kinds))]
    pub fn fields(op: u64) -> Option<Fields>
        ensures kinds { Told.kindsTold result ≡ Instr.kinds op }
        ensures row { Told.fieldsTold result ≡ get_elem? Instr.table op }
    {
        match op {
            Self::JUMP_SECTION_IF => Some(Fields(Place, Num, Unused, Tested)),
            Self::JUMP_IF_ERROR => Some(Fields(Place, Unused, Unused, Nothing)),
            Self::COPY_NUM => Some(Fields(Num, Num, Unused, FromTo)),
            Self::COPY_STR => Some(Fields(Str, Str, Unused, FromTo)),
            Self::COPY_VAL => Some(Fields(Val, Val, Unused, FromTo)),
            Self::VALUEIFY_NUM => Some(Fields(Num, Val, Unused, FromTo)),
            Self::VALUEIFY_STR => Some(Fields(Str, Val, Unused, FromTo)),
            Self::STRINGIFY_NUM => Some(Fields(Num, Str, Unused, FromTo)),
            Self::STRINGIFY_VAL => Some(Fields(Val, Str, Unused, FromTo)),
            Self::NUMBERIFY_VAL | Self::IS_TRUTHY_VAL | Self::NOT_VAL => Some(Fields(
                Val, Num, Unused, FromTo,
            )),
            Self::ADD_NUM
            | Self::SUB_NUM
            | Self::MUL
            | Self::DIV
            | Self::REM
            | Self::POW
            | Self::AND..=Self::OR => Some(Fields(Num, Num, Unused, Two)),
            Self::ADD_STR | Self::SUB_STR => Some(Fields(Str, Str, Unused, Two)),
            Self::ADD_VAL | Self::SUB_VAL => Some(Fields(Val, Val, Unused, Two)),
            Self::EQ..=Self::LT => Some(Fields(Val, Val, Num, Compared)),
            Self::ADD_SELF_STR | Self::INC_STR | Self::DEC_STR => Some(Fields(
                Str, Unused, Unused, Itself,
            )),
            Self::ADD_SELF_VAL | Self::SUB_SELF_VAL | Self::INC_VAL | Self::DEC_VAL => Some(Fields(
                Val, Unused, Unused, Itself,
            )),
            Self::IS_TRUTHY_NUM..=Self::NEG => Some(Fields(Num, Unused, Unused, Itself)),
            _ => None,
        }
    }

    #[tactic(auto, using(crate::proofs::Rows::reads_told))]
    pub fn reads(self) -> Reads
        ensures { Told.readsTold result ≡ Told.counted (Instr.reads (wordIns self.0)) }
    {
        let Some(Fields(a, b, _, flow)) = Self::fields(self.op()) else {
            return Reads::none();
        };
        match flow {
            Flow::Nothing => Reads::none(),
            Flow::Tested => Reads::one(AnyReg::of(b, self.snd())),
            Flow::Itself | Flow::FromTo => Reads::one(AnyReg::of(a, self.fst())),
            Flow::Two | Flow::Compared => Reads::two(
                AnyReg::of(a, self.fst()),
                AnyReg::of(b, self.snd()),
            ),
        }
    }

    #[tactic(auto, using(crate::proofs::Rows::modifies_told))]
    pub fn modifies(self) -> Option<AnyReg>
        ensures { Told.modifiedTold result ≡ Instr.modifies (wordIns self.0) }
    {
        let Some(Fields(a, b, c, flow)) = Self::fields(self.op()) else {
            return None;
        };
        match flow {
            Flow::Nothing | Flow::Tested => None,
            Flow::Itself | Flow::Two => Some(AnyReg::of(a, self.fst())),
            Flow::FromTo => Some(AnyReg::of(b, self.snd())),
            Flow::Compared => Some(AnyReg::of(c, self.thd())),
        }
    }

    pub fn is_jump(self) -> bool
        ensures { result ≡ Instr.isJump (wordIns self.0) }
    {
        self.op() <= Self::JUMP_IF_ERROR
    }

    #[tactic(auto, unfolding(rules::specs::Instr::getSection))]
    pub fn get_section(self) -> Option<Section>
        ensures { Told.targetTold result ≡ Instr.getSection (wordIns self.0) }
    {
        self.is_jump().then_some(Section(self.fst()))
    }

    // A jump with another target; any other instruction as it is.
    pub fn aimed(self, target: Section) -> Instruction
        ensures { result.0 ≡ insWord (Instr.aimed target.0 (wordIns self.0)) }
    {
        if self.is_jump() {
            return Self::word(self.op(), target.0, self.snd(), self.thd());
        }
        self.plain()
    }

    #[tactic(auto, using(crate::proofs::Laws::opcodes, crate::proofs::Rows::removed_told))]
    pub fn remove_reg(self, reg: AnyReg) -> Instruction
        ensures { result.0 ≡ insWord (Instr.removeReg (Told.regTold reg).0 (Told.regTold reg).1 (wordIns self.0)) }
    {
        let Some(Fields(a, b, c, _)) = Self::fields(self.op()) else {
            return self.plain();
        };
        let fst = reg.fall_of(a, self.fst());
        let snd = reg.fall_of(b, self.snd());
        let thd = reg.fall_of(c, self.thd());
        Self::word(self.op(), fst, snd, thd)
    }

    #[tactic(auto, unfolding(rules::specs::Instr::removeSection))]
    pub fn remove_section(self, section: Section) -> Instruction
        ensures { result.0 ≡ insWord (Instr.removeSection section.0 (wordIns self.0)) }
    {
        self.aimed(Section(fall(section.0, self.fst())))
    }

    // Did it jump to the removed section? If not, the section is removed from it.
    #[tactic(auto, unfolding(rules::specs::Instr::checkedRemoveSection, rules::specs::Instr::getSection))]
    pub fn checked_remove_section(&mut self, section: Section) -> bool
        ensures { (result, self.new.0) ≡ Told.packed (Instr.checkedRemoveSection section.0 (wordIns self.old.0)) }
    {
        let jumped = self.get_section() == Some(section);
        *self = if jumped {
            self.plain()
        } else {
            self.remove_section(section)
        };
        jumped
    }

    #[tactic(auto, unfolding(rules::specs::Instr::canRuntimeErr))]
    pub fn can_runtime_err(self) -> bool
        ensures { result ≡ Instr.canRuntimeErr (wordIns self.0).op }
    {
        matches!(
            self.op(),
            Self::NUMBERIFY_VAL | Self::DIV | Self::REM | Self::DEC_STR | Self::DEC_VAL
        )
    }

    // The rule for an opcode whose first two fields are one register.
    #[tactic(auto, unfolding(rules::specs::Replace::lookup, rules::specs::Replace::rules))]
    fn dup_rule(op: u64) -> DupRule
        ensures { Told.ruleTold result ≡ lookup op rules }
    {
        match op {
            Self::COPY_NUM | Self::COPY_STR | Self::COPY_VAL => DupRule::Goes,
            Self::ADD_NUM => DupRule::Turns(Self::ADD_SELF_NUM),
            Self::ADD_STR => DupRule::Turns(Self::ADD_SELF_STR),
            Self::ADD_VAL => DupRule::Turns(Self::ADD_SELF_VAL),
            Self::SUB_NUM => DupRule::Number(Number::ZERO),
            Self::SUB_STR => DupRule::Blank,
            Self::SUB_VAL => DupRule::Turns(Self::SUB_SELF_VAL),
            Self::MUL => DupRule::Turns(Self::MUL_SELF),
            Self::DIV => DupRule::Turns(Self::DIV_SELF),
            Self::REM => DupRule::Turns(Self::REM_SELF),
            Self::POW => DupRule::Turns(Self::POW_SELF),
            Self::EQ | Self::LE => DupRule::Result(Number::ONE),
            Self::LT => DupRule::Result(Number::ZERO),
            Self::AND | Self::OR => DupRule::Turns(Self::IS_TRUTHY_NUM),
            _ => DupRule::Stays,
        }
    }

    #[tactic(auto, using(crate::proofs::Rules::turn_bits))]
    pub fn dup_replace_with(self) -> Replaced
        ensures { result ≡ Told.replacedOf (ruleOf (wordIns self.0)) (wordIns self.0) }
    {
        let reg = self.fst();
        if reg != self.snd() {
            return Replaced::Stays;
        }
        match Self::dup_rule(self.op()) {
            DupRule::Stays => Replaced::Stays,
            DupRule::Goes => Replaced::Goes,
            DupRule::Turns(op) => Replaced::Turns(Self::word(op, reg, 0, 0)),
            DupRule::Number(n) => Replaced::Number(n, NumReg(reg)),
            DupRule::Result(n) => Replaced::Number(n, NumReg(self.thd())),
            DupRule::Blank => Replaced::Blank(StrReg(reg)),
        }
    }
}
