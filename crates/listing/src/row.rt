// Single rows, each written behind what a writer has already, and shown to be that of `rules`; no other byte is written. Asks for just that much
// room.
ghost use Rattle.std.specs.Prelude.{◌≡◌, ◌++◌};
ghost use Rattle.rules.specs.Listing as Listing;
ghost use Rattle.tables.specs.Lent.{countsTold};
ghost use Rattle.text.specs.Wrote.{HasRoom, Writes};
ghost use Rattle.listing.specs.Rows.{countsRow, textRow, instrRow, sectionRow};
ghost use Rattle.text.specs.Numbers.{nums};

use tables::counts::Counts;
use text::Writer;
use words::instr::Instruction;
use words::section::SectionWord;

const LINE_FEED: u8 = 10;

// A letter and numbers.
#[tactic(auto, unfolding(rules::specs::Listing::row))]
fn row(to: &mut Writer<'_>, letter: u8, fields: &[usize])
    requires { HasRoom to.old (Listing.row letter (nums fields.now)) }
    ensures { Writes to.old to.new (Listing.row letter (nums fields.now)) }
{
    to.put(letter);
    to.put_nums(fields);
    to.put(LINE_FEED);
}

// M lines sections numbers strings values
pub(crate) fn row_m(to: &mut Writer<'_>, c: Counts)
    requires { HasRoom to.old (countsRow (countsTold c)) }
    ensures { Writes to.old to.new (countsRow (countsTold c)) }
{
    let fields = [c.lines, c.sections, c.numbers, c.strings, c.values];
    row(to, b'M', &fields);
}

// N register thousandths
#[tactic(auto, unfolding(rules::specs::Listing::row))]
pub(crate) fn row_n(to: &mut Writer<'_>, i: usize, z: i64)
    requires { HasRoom to.old (Listing.row 78 (Listing.nat i ++ Listing.int z)) }
    ensures { Writes to.old to.new (Listing.row 78 (Listing.nat i ++ Listing.int z)) }
{
    to.put(b'N');
    to.put_num(i);
    to.put_int(z);
    to.put(LINE_FEED);
}

// T register length hex
#[tactic(auto, unfolding(rules::specs::Listing::row, crate::specs::Rows::textRow))]
pub(crate) fn row_t(to: &mut Writer<'_>, i: usize, s: &[u8])
    requires { HasRoom to.old (textRow i s.now) }
    ensures { Writes to.old to.new (textRow i s.now) }
{
    to.put(b'T');
    to.put_num(i);
    to.put_num(s.len());
    to.put_text(s);
    to.put(LINE_FEED);
}

// V name register
#[tactic(auto, using(crate::proofs::RowParts::name_row))]
pub(crate) fn row_v(to: &mut Writer<'_>, i: usize, v: u16)
    requires { HasRoom to.old (Listing.row 86 (Listing.nat i ++ Listing.nat v)) }
    ensures { Writes to.old to.new (Listing.row 86 (Listing.nat i ++ Listing.nat v)) }
{
    let fields = [i, usize::from(v)];
    row(to, b'V', &fields);
}

// I opcode and three fields
#[tactic(auto, using(crate::proofs::RowParts::instr_row))]
pub(crate) fn row_i(to: &mut Writer<'_>, w: Instruction)
    requires { HasRoom to.old (instrRow w.0) }
    ensures { Writes to.old to.new (instrRow w.0) }
{
    let op = w.op() as usize;
    let fields = [
        op,
        usize::from(w.fst()),
        usize::from(w.snd()),
        usize::from(w.thd()),
    ];
    row(to, b'I', &fields);
}

// S section linestart kind target count
#[tactic(auto, using(crate::proofs::RowParts::section_row))]
pub(crate) fn row_s(to: &mut Writer<'_>, i: usize, w: SectionWord)
    requires { HasRoom to.old (sectionRow i w.0) }
    ensures { Writes to.old to.new (sectionRow i w.0) }
{
    let start = usize::from(w.line_start());
    let kind = w.kind() as usize;
    let fields = [
        i,
        start,
        kind,
        usize::from(w.target()),
        usize::from(w.count()),
    ];
    row(to, b'S', &fields);
}

// R and the number of a refusal
#[tactic(auto, using(crate::proofs::RowParts::refusal_row))]
pub fn row_r(to: &mut Writer<'_>, n: u64)
    requires { HasRoom to.old (Listing.refusal n) }
    ensures { Writes to.old to.new (Listing.refusal n) }
{
    let fields = [n as usize];
    row(to, b'R', &fields);
}
