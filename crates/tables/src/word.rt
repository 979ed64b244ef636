// The rules on one word, each shown equal to the rule of its name in `rules`, for every word. Assumes nothing.
ghost use Rattle.std.specs.Prelude.{◌≡◌};
ghost use Rattle.rules.specs.Word.{wordRun};
ghost use Rattle.rules.specs.Machine.{isFixed};
ghost use Rattle.rules.specs.Tables.{fieldFits, insFits, successOf, successFits, startFits, spanFits, nameFits};
ghost use Rattle.words.specs.Told.{kindTold};
ghost use Rattle.tables.specs.Lent.{countsTold};
ghost use Rattle.tables.specs.Rules.{sectionFits};

use crate::counts::Counts;
use params::limits::MARK;
use words::instr::{Fields, Instruction, Kind};
use words::section::{SectionOrLine, SectionWord};
use words::text::StringWord;

// A field: a register or a section below its count, 0 where it is unused.
#[tactic(auto, unfolding(rules::specs::Tables::fieldFits))]
fn field_fits(c: Counts, kind: Kind, n: u16) -> bool
    ensures { result ≡ fieldFits (countsTold c) (kindTold kind) n }
{
    let n = usize::from(n);
    match kind {
        Kind::Unused => n == 0,
        Kind::Num => n < c.numbers,
        Kind::Str => n < c.strings,
        Kind::Val => n < c.values,
        Kind::Place => n < c.sections,
    }
}

#[tactic(auto, unfolding(rules::specs::Tables::insFits))]
pub fn instruction_fits(c: Counts, w: Instruction) -> bool
    ensures { result ≡ insFits (countsTold c) w.0 }
{
    let Some(Fields(fst, snd, thd, _)) = Instruction::fields(w.op()) else {
        return false;
    };
    (w.spare() == 0)
        & field_fits(c, fst, w.fst())
        & field_fits(c, snd, w.snd())
        & field_fits(c, thd, w.thd())
}

// A successor: a section or a goto's register below its count, or unfixed.
#[tactic(auto, unfolding(rules::specs::Tables::successFits))]
fn success_fits(c: Counts, w: SectionWord) -> bool
    ensures { result ≡ successFits (countsTold c) (successOf (wordRun w.0)) }
{
    match w.success() {
        SectionOrLine::Unfixed => true,
        SectionOrLine::Section(s) => usize::from(s.0) < c.sections,
        SectionOrLine::Line(n) => usize::from(n.0) < c.numbers,
    }
}

pub fn is_fixed(w: SectionWord) -> bool
    ensures { result ≡ isFixed (successOf (wordRun w.0)) }
{
    w.success() != SectionOrLine::Unfixed
}

// Line starts: sections 0 to L-1; a later section only if it is unfixed and has no instructions.
fn start_fits(c: Counts, i: usize, w: SectionWord) -> bool
    ensures { result ≡ startFits (countsTold c) i (wordRun w.0) }
{
    if i < c.lines {
        return w.line_start();
    }
    !w.line_start() | !is_fixed(w) & (w.count() == 0)
}

// A section's word as number i, whose run begins at instruction k.
#[tactic(auto, unfolding(crate::specs::Rules::sectionFits))]
pub fn section_fits(c: Counts, i: usize, k: usize, w: SectionWord) -> bool
    ensures { result ≡ sectionFits (countsTold c) i k w.0 }
{
    (w.spare() == 0) & (usize::from(w.first()) == k) & success_fits(c, w) & start_fits(c, i, w)
}

// A string's word lies inside the counted pool.
#[tactic(auto, unfolding(rules::specs::Tables::spanFits))]
pub fn string_fits(c: Counts, w: StringWord) -> bool
    ensures { result ≡ spanFits (countsTold c) w.0 }
{
    (w.spare() == 0) & (usize::from(w.start()) + usize::from(w.length()) <= c.characters)
}

// A name's register is below the count, or it has none.
#[tactic(auto, unfolding(rules::specs::Tables::nameFits))]
pub fn name_fits(c: Counts, n: u16) -> bool
    ensures { result ≡ nameFits (countsTold c) n }
{
    (n == MARK) | (usize::from(n) < c.values)
}
