// The text of a string register, shown to be what `text` of `rules` gives, and to lie in the lent pool where `textSpan` says. Assumes nothing.
ghost use Rattle.std.specs.Prelude.{◌≡◌, ◌+◌};
ghost use Rattle.rules.specs.Operations as Operations;
ghost use Rattle.tables.specs.Lent.{placeTold};

use params::limits::MOST_COUNT;
use words::instr::StrReg;
use words::text::StringWord;

// Where a text stands in the pool: a start and a length, as in the rules. No `Range`: its end could lie before its start.
#[derive(Clone, Copy)]
pub struct Place {
    pub start: usize,
    pub length: usize,
}

// A register's place; empty, at the pool's end, where register or word is bad. No `Option`: the rules and the static library want a place of each.
#[tactic(auto, using(crate::proofs::Texts::at_some, laws::specs::Table::past_end), unfolding(rules::specs::Operations::textSpan, rules::specs::Operations::stringWord))]
pub fn text_place(strings: &[u32], pool: &[u8], register: StrReg) -> Place
    ensures { placeTold result ≡ Operations.textSpan strings.now pool.now register.0 }
{
    let end = Place {
        start: pool.len(),
        length: 0,
    };
    let at = usize::from(register.0);
    if at >= MOST_COUNT {
        return end;
    }
    let Some(&word) = strings.get(at) else {
        return end;
    };
    let w = StringWord(word);
    if w.spare() != 0 {
        return end;
    }
    let start = usize::from(w.start());
    let length = usize::from(w.length());
    if start + length > pool.len() {
        return end;
    }
    Place { start, length }
}

// That part of the pool.
#[tactic(auto, using(crate::proofs::Texts::place_inside), unfolding(rules::specs::Operations::text))]
pub fn text<'a>(strings: &[u32], pool: &'a [u8], register: StrReg) -> &'a [u8]
    ensures text { result.now ≡ Operations.text strings.now pool.now register.0 }
    ensures place { result.ref_ptr ≡ (pool.entry.ref_ptr.0, (Operations.textSpan strings.now pool.now register.0).start + pool.entry.ref_ptr.1) }
{
    let p = text_place(strings, pool, register);
    &pool[p.start..p.start + p.length]
}
