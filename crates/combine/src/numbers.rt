// New numbers: for each section the heads below it. A number that is no section's, which no checked machine has, falls by as many as are taken in.
ghost use Rattle.std.specs.Prelude.{◌≡◌, ℕ, ◌≤◌, ◌<◌, ◌+◌, cond, length, get_or};
ghost use Rattle.std.specs.Coded.{le_prop};
ghost use Rattle.rules.specs.Constants.{mostCount};
ghost use Rattle.gather.specs.Gather.{rankBy};
ghost use Rattle.combine.specs.Counting.{headBy};
ghost use Rattle.combine.specs.Numbers.{numberBy};

use crate::references::is_head;
use clean::retarget::Numbering;
use words::instr::Section;

// The heads below each section; all of them are handed back.
pub fn number_heads(numbers: &mut [u16], counts: &[u8]) -> u16
    requires { (length numbers.old ≡ length counts.now) × (length counts.now ≤ mostCount) }
    ensures { (result ≡ rankBy (headBy counts.now) (length counts.now)) × (result ≤ length counts.now) × ((t : ℕ) → t < length counts.now → get_or numbers.new t 0 ≡ rankBy (headBy counts.now) t) }
{
    let mut heads: u16 = 0;
    for t in 0..counts.len() {
        numbers[t] = heads;
        if is_head(counts[t]) {
            heads += 1;
        }
    }
    heads
}

// The new number of each section, and how many heads there are.
#[derive(Clone, Copy)]
pub struct NewNumbers<'a> {
    pub numbers: &'a [u16],
    pub heads: u16,
    pub ghost fewer: { heads ≤ length numbers.now } by { le_prop },
}

impl Numbering for NewNumbers<'_> {
    ghost number_of = { λ n. numberBy n.numbers.now n.heads };

    // Past the sections a number falls as their number does.
    fn new_number(self, t: Section) -> Section {
        let at = usize::from(t.0);
        match self.numbers.get(at) {
            Some(&k) => Section(k),
            None => Section(self.heads + (at - self.numbers.len()) as u16),
        }
    }
}
