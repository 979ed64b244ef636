// The pass on the words in use, with tables of its own on the stack: a count for each section, and where one may be taken in, a number for each section
// and a copy of the instructions.
ghost use Rattle.std.specs.Prelude.{◌≡◌, ◌≤◌, length};
ghost use Rattle.rules.specs.Constants.{mostCount};
ghost use Rattle.combine.specs.Combined.{Combinable, Combines};
ghost use Rattle.combine.specs.Counting.{countsOf};
ghost use Rattle.combine.specs.Writes.{Collectable, Collects};

use crate::numbers::{NewNumbers, number_heads};
use crate::references::{all_heads, count_jumps, count_sections};
use crate::store::Places;
use crate::write::{keep_heads, write_heads};
use params::limits::{MOST_COUNT, MOST_LINES, MOST_NODES};

// The words copied out. By a loop, since the library's `copy_from_slice` asks for `memmove` of the C library, and nothing else here does.
fn copy_words(copy: &mut [u64], words: &[u64])
    requires { length copy.old ≡ length words.now }
    ensures { copy.new ≡ words.now }
{
    for i in 0..words.len() {
        copy[i] = words[i];
    }
}

// Heads are numbered and written out with their chains; the other tables are lent.
fn gather(
    sections: &mut [u64],
    places: &mut Places,
    counts: &[u8],
    numbers: &mut [u16],
    copy: &mut [u64],
) -> usize
    requires machine { Collectable sections.old places.old }
    requires tables { (counts.now ≡ countsOf sections.old places.old.table.now) × (length numbers.old ≡ length sections.old) × (length copy.old ≡ length places.old.table.now) }
    ensures { Collects sections.old sections.new places.old places.new result }
{
    copy_words(copy, places.words());
    let heads = number_heads(numbers, counts);
    write_heads(
        sections,
        places,
        copy,
        counts,
        NewNumbers { numbers, heads },
    );
    keep_heads(sections, counts)
}

// With tables for N sections and E instructions. This and `collect_with` stay functions, so that only the tables that are used take up the stack.
#[inline(never)]
fn gather_with<const N: usize, const E: usize>(
    sections: &mut [u64],
    places: &mut Places,
    counts: &[u8],
) -> usize
    requires machine { Collectable sections.old places.old }
    requires counted { counts.now ≡ countsOf sections.old places.old.table.now }
    requires lengths { (length sections.old ≤ N) × (length places.old.table.now ≤ E) × (N ≤ mostCount) × (E ≤ mostCount) }
    ensures { Collects sections.old sections.new places.old places.new result }
{
    let mut numbers = [0u16; N];
    let mut copy = [0u64; E];
    let (n, e) = (sections.len(), places.words().len());
    gather(sections, places, counts, &mut numbers[..n], &mut copy[..e])
}

// Where no section is taken in, the machine is combined as it is; that may be seen before jumps are counted, which only take more away.
#[inline(never)]
fn collect_with<const N: usize, const E: usize>(sections: &mut [u64], places: &mut Places) -> usize
    requires machine { Collectable sections.old places.old }
    requires lengths { (length sections.old ≤ N) × (length places.old.table.now ≤ E) × (N ≤ mostCount) × (E ≤ mostCount) }
    ensures { Collects sections.old sections.new places.old places.new result }
{
    let mut table = [0u8; N];
    let counts = &mut table[..sections.len()];
    count_sections(counts, sections);
    if all_heads(counts) {
        return sections.len();
    }
    count_jumps(counts, places.words());
    gather_with::<N, E>(sections, places, counts)
}

// Tables come in four lengths, since to clear a long one takes longer than to combine a short machine: for a line or two, for a script of some five
// hundred nodes, for any tree, by its estimate, and for any machine.
const LINE: usize = 64;

const SCRIPT_SECTIONS: usize = 1_024;

const SCRIPT_INSTRUCTIONS: usize = 2_048;

const TREE_SECTIONS: usize = MOST_LINES + 4 * MOST_NODES;

const TREE_INSTRUCTIONS: usize = 9 * MOST_NODES;

fn collect_by_size(sections: &mut [u64], places: &mut Places) -> usize
    requires { Collectable sections.old places.old }
    ensures { Collects sections.old sections.new places.old places.new result }
{
    let (n, e) = (sections.len(), places.words().len());
    if n <= LINE && e <= LINE {
        collect_with::<LINE, LINE>(sections, places)
    } else if n <= SCRIPT_SECTIONS && e <= SCRIPT_INSTRUCTIONS {
        collect_with::<SCRIPT_SECTIONS, SCRIPT_INSTRUCTIONS>(sections, places)
    } else if n <= TREE_SECTIONS && e <= TREE_INSTRUCTIONS {
        collect_with::<TREE_SECTIONS, TREE_INSTRUCTIONS>(sections, places)
    } else {
        collect_with::<MOST_COUNT, MOST_COUNT>(sections, places)
    }
}

// The words in use combined; the sections that are left are counted.
pub fn collect(sections: &mut [u64], instructions: &mut [u64]) -> usize
    requires { Combinable sections.old instructions.old }
    ensures { Combines sections.old instructions.old sections.new instructions.new result }
{
    let mut places = Places::over(instructions);
    collect_by_size(sections, &mut places)
}
