// The rows of whole tables, each written behind what a writer has already, and shown to be those of `rules`; no other byte is written. Asks for
// just that much room.
ghost use Rattle.std.specs.Prelude.{◌≡◌, map, length};
ghost use Rattle.rules.specs.Word.{wordIns, wordSpan};
ghost use Rattle.rules.specs.Tables.{readSections};
ghost use Rattle.rules.specs.Listing as Listing;
ghost use Rattle.tables.specs.Runs.{total};
ghost use Rattle.text.specs.Wrote.{HasRoom, Writes};
ghost use Rattle.listing.specs.Rows.{Inside};

use crate::row::{row_i, row_n, row_s, row_t, row_v};
use params::limits::MARK;
use text::Writer;
use words::instr::Instruction;
use words::section::SectionWord;
use words::text::StringWord;

pub(crate) fn rows_n(to: &mut Writer<'_>, numbers: &[i64])
    requires { HasRoom to.old (Listing.rowsN 0 numbers.now) }
    ensures { Writes to.old to.new (Listing.rowsN 0 numbers.now) }
{
    for (i, z) in numbers.iter().enumerate() {
        row_n(to, i, *z);
    }
}

pub(crate) fn rows_t(to: &mut Writer<'_>, strings: &[u32], pool: &[u8])
    requires { Inside strings.now pool.now (length strings.now) × HasRoom to.old (Listing.rowsT pool.now 0 (map wordSpan strings.now)) }
    ensures { Writes to.old to.new (Listing.rowsT pool.now 0 (map wordSpan strings.now)) }
{
    for (i, word) in strings.iter().enumerate() {
        let w = StringWord(*word);
        let start = usize::from(w.start());
        let stop = start + usize::from(w.length());
        row_t(to, i, &pool[start..stop]);
    }
}

pub(crate) fn rows_v(to: &mut Writer<'_>, names: &[u16])
    requires { HasRoom to.old (Listing.rowsV 0 names.now) }
    ensures { Writes to.old to.new (Listing.rowsV 0 names.now) }
{
    for (i, name) in names.iter().enumerate() {
        if *name != MARK {
            row_v(to, i, *name);
        }
    }
}

fn rows_i(to: &mut Writer<'_>, instructions: &[u64])
    requires { HasRoom to.old (Listing.rowsI (map wordIns instructions.now)) }
    ensures { Writes to.old to.new (Listing.rowsI (map wordIns instructions.now)) }
{
    for word in instructions {
        row_i(to, Instruction(*word));
    }
}

// Each section's row is followed by its instructions'.
pub(crate) fn rows_s(to: &mut Writer<'_>, sections: &[u64], instructions: &[u64])
    requires { (total sections.now ≡ length instructions.now) × HasRoom to.old (Listing.rowsS 0 (readSections sections.now instructions.now)) }
    ensures { Writes to.old to.new (Listing.rowsS 0 (readSections sections.now instructions.now)) }
{
    let mut rest = instructions;
    for (i, word) in sections.iter().enumerate() {
        let w = SectionWord(*word);
        let (own, behind) = rest.split_at(usize::from(w.count()));
        row_s(to, i, w);
        rows_i(to, own);
        rest = behind;
    }
}
