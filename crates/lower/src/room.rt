// How much of each lent table a tree may need, and whether it is there. Shown equal to `estimate` and `holds` of `rules`. An estimate asks for
// a size within the limits.
ghost use Rattle.std.specs.Prelude.{◌≡◌};
ghost use Rattle.rules.specs.Operations as Operations;
ghost use Rattle.tree.specs.Files.{sized};
ghost use Rattle.tables.specs.Lent.{countsTold, tables};
ghost use Rattle.lower.specs.Lower.{Limited};

use tables::counts::Counts;
use tree::Sizes;

// The estimates: sections a statement, instructions a node, numbers a node.
const SECTIONS_A_STATEMENT: usize = 4;

const INSTRUCTIONS_A_NODE: usize = 9;

const NUMBERS_A_NODE: usize = 2;

#[tactic(auto, unfolding(rules::specs::Operations::estimate))]
pub fn estimate(z: Sizes) -> Counts
    requires { Limited (sized z) }
    ensures { countsTold result ≡ Operations.estimate (sized z) }
{
    let lines = z.lines as usize;
    Counts {
        lines,
        sections: lines + SECTIONS_A_STATEMENT * z.statements,
        instructions: INSTRUCTIONS_A_NODE * z.nodes,
        numbers: NUMBERS_A_NODE * z.nodes,
        strings: z.strings,
        characters: z.characters,
        values: 0,
        names: z.names as usize,
    }
}

// Does each lent table hold its estimate? The tables are lent to be written, and laid into a struct for this test they would be borrowed once more.
#[tactic(auto, unfolding(rules::specs::Operations::holds))]
pub fn holds(
    c: Counts,
    sections: &[u64],
    instructions: &[u64],
    numbers: &[i64],
    strings: &[u32],
    pool: &[u8],
    names: &[u16],
) -> bool
    ensures { result ≡ Operations.holds (tables sections.now instructions.now numbers.now strings.now pool.now names.now) (countsTold c) }
{
    (c.sections <= sections.len())
        & (c.instructions <= instructions.len())
        & (c.numbers <= numbers.len())
        & (c.strings <= strings.len())
        & (c.characters <= pool.len())
        & (c.names <= names.len())
}
