// Fields of bits, most significant first, and the steps of a reader over them.
//
// Each function is shown equal to the reader of the same name in `rules`, or to a definition of specs/Reads over those readers.
// A caller owes a cursor within the file and the limits (`Fine`), which the first cursor is and each step hands on.
// The leaves ask by a clause that the file is short, and all others have it in `Fine` and `Ready`: a struct round the bytes would have to be made
// at each call, from the bare slice that C and the programs lend.
#![tactic(auto)]

ghost use Rattle.std.specs.Prelude.{◌≡◌, ◌≤◌, ◌<◌, ◌+◌, ◌*◌, ◌%◌, ◌^◌, length};
ghost use Rattle.std.specs.Int.{from_bool};
ghost use Rattle.rules.specs.Constants.{mostBytes, mostChars, byteBits, numberBits};
ghost use Rattle.rules.specs.Bits.{field, spelled};
ghost use Rattle.rules.specs.Parse.{bits};
ghost use Rattle.params.specs.Told.{numberOf};
ghost use Rattle.bits.specs.Reads.{endRes, fieldEnd, fieldRes, Fine, Takes, Passes, Skips, belowR, beginR};

use params::limits::{BYTE_BITS, CHAR_BITS, MOST_NODES};
use params::refusal::Refusal;

// Where the reader stands, and what it has counted: nodes, the statements among them, the sections that lowering makes of those,
// strings and their characters. That it is `Fine` is a clause and no invariant: the file is part of it, and clauses also name cursors where
// no reader stands, as the one before a node whose kind is read.
#[derive(Clone, Copy, Default)]
pub struct Cursor {
    pub pos: usize,
    pub nodes: usize,
    pub statements: usize,
    pub sections: usize,
    pub strings: usize,
    pub chars: usize,
}

// The number that n bits spell, which lie in the byte where they begin and the one behind it (the last stands in for the one behind it).
// Where they end in the first, the other is shifted out. No branch depends on where they lie.
fn window(s: &[u8], p: usize, n: usize) -> u64
    requires { (0 < n) × (n ≤ byteBits) × (p + n ≤ byteBits * length s.now) × (length s.now ≤ mostBytes) }
    ensures { result ≡ spelled s.now n p }
{
    let i = p / BYTE_BITS;
    let j = (i + 1).min(s.len() - 1);
    let both = (u64::from(s[i]) << BYTE_BITS) + u64::from(s[j]);
    (both >> (2 * BYTE_BITS - p % BYTE_BITS - n)) & ((1 << n) - 1)
}

// The number that the w bits at a position spell, where they are: eight at a time, then the others.
pub fn peek(s: &[u8], at: usize, w: usize) -> u64
    requires { (length s.now ≤ mostBytes) × ((w ≤ numberBits) × (at + w ≤ byteBits * length s.now)) }
    ensures { result ≡ spelled s.now w at }
{
    let mut v: u64 = 0;
    for k in 0..w / BYTE_BITS {
        v = (v << BYTE_BITS) + window(s, at + k * BYTE_BITS, BYTE_BITS);
    }
    let n = w % BYTE_BITS;
    if n == 0 {
        return v;
    }
    (v << n) + window(s, at + (w - n), n)
}

// Whether the field of w bits is there is decided here, and nowhere else.
fn field_end(s: &[u8], at: usize, w: usize) -> Option<usize>
    requires { length s.now ≤ mostBytes }
    ensures { endRes result ≡ fieldEnd s.now w at }
{
    let bits = s.len() * BYTE_BITS;
    if at > bits || w > bits - at {
        return None;
    }
    Some(at + w)
}

// The value of the field of w bits, and the position behind it, if it is there. It and two steps over it are `inline(always)`: without it the
// reader of nodes took up to 15 % longer.
#[inline(always)]
pub fn read_field(s: &[u8], at: usize, w: usize) -> Option<(u64, usize)>
    requires { (length s.now ≤ mostBytes) × (w ≤ numberBits) }
    ensures { fieldRes result ≡ field s.now w at }
{
    let Some(p) = field_end(s, at, w) else {
        return None;
    };
    Some((peek(s, at, w), p))
}

impl Cursor {
    // The next w bits.
    #[inline(always)]
    pub fn take(self, s: &[u8], w: usize) -> Result<(u64, Cursor), Refusal>
        requires { (Fine s.now self) × (w ≤ numberBits) }
        ensures { Takes (bits w) s.now self 0 0 (2 ^ w) result }
    {
        let Some((v, p)) = read_field(s, self.pos, w) else {
            return Err(Refusal::EndsInField);
        };
        Ok((v, Cursor { pos: p, ..self }))
    }

    // The next w bits, refused as `refusal` says unless they are below `limit`.
    #[inline(always)]
    pub fn below(
        self,
        s: &[u8],
        w: usize,
        limit: u64,
        refusal: Refusal,
    ) -> Result<(u64, Cursor), Refusal>
        requires { (Fine s.now self) × (w ≤ numberBits) }
        ensures { Takes (belowR w limit (numberOf refusal)) s.now self 0 0 limit result }
    {
        let (v, d) = self.take(s, w)?;
        if v >= limit {
            return Err(refusal);
        }
        Ok((v, d))
    }

    // A node begins with `depth` levels left, itself among them, and the w bits of its kind: first it must not be too deep, then not one too many.
    // A statement is counted here, with its own section.
    pub fn begin(
        self,
        s: &[u8],
        w: usize,
        is_statement: bool,
        depth: usize,
    ) -> Result<(u64, Cursor), Refusal>
        requires { (Fine s.now self) × ((2 ≤ w) × (w ≤ numberBits)) }
        ensures { Takes (beginR w depth) s.now self 1 (from_bool is_statement) (2 ^ w) result }
    {
        if depth == 0 {
            return Err(Refusal::TooDeep);
        }
        if self.nodes >= MOST_NODES {
            return Err(Refusal::TooManyNodes);
        }
        let (kind, d) = self.take(s, w)?;
        let more = usize::from(is_statement);
        let counted = Cursor {
            nodes: d.nodes + 1,
            statements: d.statements + more,
            sections: d.sections + more,
            ..d
        };
        Ok((kind, counted))
    }

    // w bits are there, and are passed over.
    pub fn pass(self, s: &[u8], w: usize) -> Result<Cursor, Refusal>
        requires { Fine s.now self }
        ensures { Passes w s.now self result }
    {
        let Some(p) = field_end(s, self.pos, w) else {
            return Err(Refusal::EndsInField);
        };
        Ok(Cursor { pos: p, ..self })
    }

    // n characters are there, and are passed over.
    pub fn skip(self, s: &[u8], n: usize) -> Result<Cursor, Refusal>
        requires { (Fine s.now self) × (n ≤ mostChars) }
        ensures { Skips n s.now self result }
    {
        self.pass(s, CHAR_BITS * n)
    }
}
