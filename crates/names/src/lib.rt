// The names of a file: refused where two are the same. They are compared where they stand, so that no table of them is needed.
//
// `read_names` is shown equal to `names n []` of `rules`. A caller owes a cursor within the file and the limits (`Fine`).
// Between u64 and usize there is no `From`, and what is narrowed is shown to fit: so `as`.
#![tactic(auto)]

ghost use Rattle.std.specs.Prelude.{◌≡◌, ◌≤◌, ◌<◌, ◌*◌, ◌+◌, length};
ghost use Rattle.rules.specs.Constants.{mostBytes, byteBits, charBits};
ghost use Rattle.rules.specs.Bits.{spelled};
ghost use Rattle.rules.specs.Parse.{toLowercase, sameName, known as knownS};
ghost use Rattle.bits.specs.Reads.{Fine};
ghost use Rattle.names.specs.Names.{headerBits, nameAt, nextName, namesAt, endAt, NamesOne, NamesAll};

use bits::Cursor;
use params::limits::{CHAR_BITS, FLAG_BITS, NAME_LENGTH_BITS};
use params::refusal::Refusal;

// A name's flag and length together.
const HEADER_BITS: usize = FLAG_BITS + NAME_LENGTH_BITS;

// Where the name at q ends, and the next one begins.
pub fn after(s: &[u8], q: usize) -> usize
    requires { (length s.now ≤ mostBytes) × (q + headerBits ≤ byteBits * length s.now) }
    ensures { result ≡ nextName s.now q }
{
    let l = bits::peek(s, q + FLAG_BITS, NAME_LENGTH_BITS) as usize;
    q + HEADER_BITS + CHAR_BITS * (l + 1)
}

// Is the name at q global?
#[tactic(auto, unfolding(crate::specs::Names::nameAt, rules::specs::Bits::isOne))]
pub fn is_global(s: &[u8], q: usize) -> bool
    requires { (length s.now ≤ mostBytes) × (q + headerBits ≤ byteBits * length s.now) }
    ensures { result ≡ (nameAt s.now q).isGlobal }
{
    bits::peek(s, q, FLAG_BITS) == 1
}

// The character at p, in lower case.
#[tactic(auto, using(crate::proofs::Laws::lowered))]
fn lowercase(s: &[u8], p: usize) -> u8
    requires { (length s.now ≤ mostBytes) × (p + charBits ≤ byteBits * length s.now) }
    ensures { result ≡ toLowercase (spelled s.now charBits p) }
{
    let c = bits::peek(s, p, CHAR_BITS) as u8;
    c.to_ascii_lowercase()
}

// Are the names at p and q the same? Flag and length first, then characters in lower case.
#[tactic(auto, unfolding(crate::specs::Names::nextName, crate::specs::Names::charsOf))]
fn same(s: &[u8], p: usize, q: usize) -> bool
    requires { (length s.now ≤ mostBytes) × ((nextName s.now p ≤ byteBits * length s.now) × (nextName s.now q ≤ byteBits * length s.now)) }
    ensures { result ≡ sameName (nameAt s.now p) (nameAt s.now q) }
{
    if bits::peek(s, p, HEADER_BITS) != bits::peek(s, q, HEADER_BITS) {
        return false;
    }
    let length = bits::peek(s, p + FLAG_BITS, NAME_LENGTH_BITS) as usize + 1;
    let a = p + HEADER_BITS;
    let b = q + HEADER_BITS;
    for k in 0..length {
        if lowercase(s, a + CHAR_BITS * k) != lowercase(s, b + CHAR_BITS * k) {
            return false;
        }
    }
    true
}

// Is the name at p among the k names from start on?
fn known(s: &[u8], start: usize, k: usize, p: usize) -> bool
    requires { (length s.now ≤ mostBytes) × ((endAt s.now k start ≤ byteBits * length s.now) × (nextName s.now p ≤ byteBits * length s.now)) }
    ensures { result ≡ knownS (nameAt s.now p) (namesAt s.now k start) }
{
    let mut q = start;
    for _ in 0..k {
        if same(s, p, q) {
            return true;
        }
        q = after(s, q);
    }
    false
}

// A flag, a length and characters.
fn one(s: &[u8], c: Cursor) -> Result<Cursor, Refusal>
    requires { Fine s.now c }
    ensures { NamesOne s.now c result }
{
    let (_, d) = c.take(s, FLAG_BITS)?;
    let (l, e) = d.take(s, NAME_LENGTH_BITS)?;
    e.skip(s, l as usize + 1)
}

// n names, no two of them the same.
pub fn read_names(s: &[u8], c: Cursor, n: usize) -> Result<Cursor, Refusal>
    requires { Fine s.now c }
    ensures { NamesAll n s.now c result }
{
    let mut d = c;
    for k in 0..n {
        let e = one(s, d)?;
        if known(s, c.pos, k, d.pos) {
            return Err(Refusal::EqualNames);
        }
        d = e;
    }
    Ok(d)
}
