// The two passes behind lowering, on the words of a lowered machine. Asks that they are an accepted tree's: then no pass would refuse them.
ghost use Rattle.finish.specs.Passes.{Lowered, Finished};

use clean::pack::Room;
use clean::remove_unfixed_sections::remove_unfixed_sections;
use combine::combine_all;

// n sections, e instructions; what is left of them is handed back. The tables are lent whole: the contract says what stands behind these, too.
pub fn clean_and_combine(sections: &mut [u64], instructions: &mut [u64], n: usize, e: usize) -> Room
    requires { Lowered sections.old instructions.old n e }
    ensures { Finished sections.old instructions.old sections.new instructions.new n e result.sections result.instructions }
{
    let r = remove_unfixed_sections(sections, instructions, n, e);
    let left = combine_all(sections, instructions, r.sections, r.instructions);
    Room {
        sections: left,
        ..r
    }
}
