// A section's word, with the successor that yogi's SectionCode holds.
//
// Each function is shown equal to `runWord`, `wordRun` and `successOf` of `rules`, for every u64, and asks nothing.
ghost use Rattle.std.specs.Prelude.{◌≡◌, ◌<◌};
ghost use Rattle.rules.specs.Tables.{runOf};
ghost use Rattle.rules.specs.Bits.{isOne};
ghost use Rattle.rules.specs.Word.{runWord, wordRun, runSpare};
ghost use Rattle.rules.specs.Tables as Tables;
ghost use Rattle.words.specs.Runs as Runs;

use crate::instr::{NumReg, Section};
use params::limits::MARK;

// A successor: not fixed yet, a section, or the line that a number register says. Section 65,535 is no section: its word is that of Unfixed.
#[derive(Clone, Copy, PartialEq, Eq)]
pub enum SectionOrLine {
    Unfixed,
    Section(Section),
    Line(NumReg),
}

impl SectionOrLine {
    // The kind and the target of its word.

    #[tactic(auto, unfolding(rules::specs::Tables::kindOf))]
    fn kind(self) -> u64
        ensures { result ≡ Tables.kindOf (Runs.successTold self) }
    {
        match self {
            SectionOrLine::Unfixed | SectionOrLine::Section(_) => SectionWord::SECTION,
            SectionOrLine::Line(_) => SectionWord::LINE,
        }
    }

    #[tactic(auto, unfolding(rules::specs::Tables::targetOf))]
    fn target(self) -> u16
        ensures { result ≡ Tables.targetOf (Runs.successTold self) }
    {
        match self {
            SectionOrLine::Unfixed => MARK,
            SectionOrLine::Section(s) => s.0,
            SectionOrLine::Line(n) => n.0,
        }
    }
}

// A section's word: line start (1 bit), kind (1: 0 section, 1 line), target (16), first instruction (16), count (16), 14 zero bits.
#[derive(Clone, Copy)]
pub struct SectionWord(pub u64);

impl SectionWord {
    // The bit of the kind, as it stands in the word and is printed; `SectionOrLine` is the enum.

    const SECTION: u64 = 0;

    const LINE: u64 = 1;

    #[tactic(auto, unfolding(rules::specs::Word::runWord))]
    fn word(start: u64, kind: u64, target: u16, first: u16, count: u16) -> SectionWord
        requires { (start < 2) × (kind < 2) }
        ensures { result.0 ≡ runWord (Runs.run start kind target first count) }
    {
        SectionWord(
            (start << 63)
                + (kind << 62)
                + (u64::from(target) << 46)
                + (u64::from(first) << 30)
                + (u64::from(count) << 14),
        )
    }

    #[tactic(auto, using(crate::proofs::Sections::one_bit), unfolding(rules::specs::Tables::flag))]
    pub fn pack(start: bool, success: SectionOrLine, first: u16, count: u16) -> SectionWord
        ensures { result.0 ≡ runWord (runOf start (Runs.successTold success) first count) }
    {
        let flag = u64::from(start);
        Self::word(flag, success.kind(), success.target(), first, count)
    }

    #[tactic(auto, unfolding(rules::specs::Word::wordRun))]
    fn start(self) -> u64
        ensures { result ≡ (wordRun self.0).lineStart }
    {
        self.0 >> 63
    }

    #[tactic(auto, unfolding(rules::specs::Bits::isOne))]
    pub fn line_start(self) -> bool
        ensures { result ≡ isOne (wordRun self.0).lineStart }
    {
        self.start() == 1
    }

    #[tactic(auto, unfolding(rules::specs::Word::wordRun))]
    pub fn kind(self) -> u64
        ensures { result ≡ (wordRun self.0).kind }
    {
        (self.0 >> 62) % 2
    }

    #[tactic(auto, unfolding(rules::specs::Word::wordRun))]
    pub fn target(self) -> u16
        ensures { result ≡ (wordRun self.0).target }
    {
        ((self.0 >> 46) % 65536) as u16
    }

    #[tactic(auto, unfolding(rules::specs::Word::wordRun))]
    pub fn first(self) -> u16
        ensures { result ≡ (wordRun self.0).first }
    {
        ((self.0 >> 30) % 65536) as u16
    }

    #[tactic(auto, unfolding(rules::specs::Word::wordRun))]
    pub fn count(self) -> u16
        ensures { result ≡ (wordRun self.0).count }
    {
        ((self.0 >> 14) % 65536) as u16
    }

    // The bits that must be zero.
    #[tactic(auto, unfolding(rules::specs::Word::runSpare))]
    pub fn spare(self) -> u64
        ensures { result ≡ runSpare self.0 }
    {
        self.0 % 16384
    }

    #[tactic(auto, unfolding(rules::specs::Tables::successOf, rules::specs::Bits::isOne))]
    pub fn success(self) -> SectionOrLine
        ensures { Runs.successTold result ≡ Tables.successOf (wordRun self.0) }
    {
        let target = self.target();
        if self.kind() == Self::LINE {
            return SectionOrLine::Line(NumReg(target));
        }
        if target == MARK {
            return SectionOrLine::Unfixed;
        }
        SectionOrLine::Section(Section(target))
    }

    // The word with another successor, first instruction or count.

    #[tactic(auto, using(crate::proofs::Sections::one_bit))]
    pub fn with_success(self, success: SectionOrLine) -> SectionWord
        ensures { result.0 ≡ runWord (Runs.withSuccess (Runs.successTold success) (wordRun self.0)) }
    {
        Self::word(
            self.start(),
            success.kind(),
            success.target(),
            self.first(),
            self.count(),
        )
    }

    #[tactic(auto, using(crate::proofs::Sections::one_bit))]
    pub fn with_first(self, first: u16) -> SectionWord
        ensures { result.0 ≡ runWord (Runs.withFirst first (wordRun self.0)) }
    {
        Self::word(
            self.start(),
            self.kind(),
            self.target(),
            first,
            self.count(),
        )
    }

    #[tactic(auto, using(crate::proofs::Sections::one_bit))]
    pub fn with_count(self, count: u16) -> SectionWord
        ensures { result.0 ≡ runWord (Runs.withCount count (wordRun self.0)) }
    {
        Self::word(
            self.start(),
            self.kind(),
            self.target(),
            self.first(),
            count,
        )
    }
}
