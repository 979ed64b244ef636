// Heads are written out, lowest first: the instructions of their chains at rising places, their words where they stand, since only a head's own chain
// reads its word. When all are written, so that no chain is read any more, the words move down over those that were taken in.
ghost use Rattle.std.specs.Prelude.{◌≡◌, List, ◌++◌, ◌-◌, ◌≤◌, length, get_or, replicate};
ghost use Rattle.rules.specs.Machine.{SectionCode};
ghost use Rattle.gather.specs.Gather.{pick};
ghost use Rattle.combine.specs.Counting.{headBy};
ghost use Rattle.combine.specs.Writes.{HeadsReady, HeadsWritten};

use crate::chains::Chains;
use crate::numbers::NewNumbers;
use crate::references::is_head;
use crate::store::Places;

pub fn write_heads(
    sections: &mut [u64],
    places: &mut Places,
    code: &[u64],
    counts: &[u8],
    numbers: NewNumbers,
)
    ghost m: { List SectionCode }
    requires { HeadsReady m sections.old places.old code.now counts.now numbers }
    ensures { HeadsWritten m sections.new places.old places.new }
{
    for t in 0..sections.len() {
        if !is_head(counts[t]) {
            continue;
        }
        let chains = Chains {
            sections: &sections[..],
            code,
            counts,
            numbers,
        };
        let first = places.next();
        let last = chains.store_chain(places, t);
        let w = chains.head_word(t, last, first, places.next());
        sections[t] = w.0;
    }
}

// The words of heads moved down, and zeros behind them; heads are counted.
pub fn keep_heads(sections: &mut [u64], counts: &[u8]) -> usize
    requires { length counts.now ≡ length sections.old }
    ensures { let ws = pick (headBy counts.now) (λ t. get_or sections.old t 0) 0 (length sections.old) in (result ≡ length ws) × (result ≤ length sections.old) × (sections.new ≡ ws ++ replicate (length sections.old - result) 0) }
{
    let mut left: usize = 0;
    for t in 0..sections.len() {
        if !is_head(counts[t]) {
            continue;
        }
        sections[left] = sections[t];
        left += 1;
    }
    sections[left..].fill(0);
    left
}
