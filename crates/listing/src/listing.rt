// The listing of a machine in lent tables, shown to be `listing` of `rules` of the machine that the words hold, with every byte behind it as it
// was. Asks that they hold one, and for just that much room.
ghost use Rattle.tables.specs.Lent.{countsTold, tables};
ghost use Rattle.listing.specs.Listed.{Lists, Listed};

use crate::row::row_m;
use crate::rows::{rows_n, rows_s, rows_t, rows_v};
use tables::counts::Counts;
use text::Writer;

// Answers how many bytes are written. The six tables stand apart, as in the contracts, which take six lists.
pub fn listing(
    out: &mut [u8],
    c: Counts,
    sections: &[u64],
    instructions: &[u64],
    numbers: &[i64],
    strings: &[u32],
    pool: &[u8],
    names: &[u16],
) -> usize
    requires { Lists (tables sections.now instructions.now numbers.now strings.now pool.now names.now) (countsTold c) out.old }
    ensures { Listed (tables sections.now instructions.now numbers.now strings.now pool.now names.now) (countsTold c) out.old out.new result }
{
    let mut to = Writer::new(out);
    row_m(&mut to, c);
    rows_n(&mut to, &numbers[..c.numbers]);
    rows_t(&mut to, &strings[..c.strings], &pool[..c.characters]);
    rows_v(&mut to, &names[..c.names]);
    rows_s(
        &mut to,
        &sections[..c.sections],
        &instructions[..c.instructions],
    );
    to.at
}
