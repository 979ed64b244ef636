// The words of a recorded table: rows of numbers, parted by blanks, read into a lent table or compared with one.
//
// Each function is shown safe and ending, on any bytes.
ghost use Rattle.std.specs.Prelude.{◌≡◌, ◌≤◌, length, take};

use crate::{decimal, hexadecimal, spelled};

// A word of a table, as a row spells it.
pub trait Word: Copy + PartialEq {
    fn read(text: &[u8]) -> Self;
}

// In hexadecimal.
impl Word for u64 {
    fn read(text: &[u8]) -> u64 {
        hexadecimal(text)
    }
}

impl Word for u32 {
    fn read(text: &[u8]) -> u32 {
        u32::try_from(hexadecimal(text)).unwrap_or(0)
    }
}

// In decimal, with its sign.
impl Word for i64 {
    fn read(text: &[u8]) -> i64 {
        match text {
            [b'-', rest @ ..] => 0i64.checked_sub_unsigned(decimal(rest)).unwrap_or(0),
            _ => i64::try_from(decimal(text)).unwrap_or(0),
        }
    }
}

// In decimal.
impl Word for u16 {
    fn read(text: &[u8]) -> u16 {
        u16::try_from(decimal(text)).unwrap_or(0)
    }
}

// The words of a row, as many as there is room for; how many, since there is no heap.
pub fn read<W: Word>(text: &[u8], out: &mut [W]) -> usize
    ensures { (result ≤ length out.new) × (result ≡ length (take result out.new)) }
{
    let mut words = text.split_inclusive(|b| *b == b' ');
    for (n, place) in out.iter_mut().enumerate() {
        let Some(word) = words.next() else {
            return n;
        };
        *place = W::read(word);
    }
    out.len()
}

// Is the row just these words?
pub fn spells<W: Word>(text: &[u8], t: &[W]) -> bool {
    let words = text
        .split_inclusive(|b| *b == b' ')
        .map(|word| W::read(word));
    words.eq(t.iter().copied())
}

// Is the text just these bytes, in hexadecimal without gaps?
pub fn spells_bytes(text: &[u8], t: &[u8]) -> bool {
    let (pairs, _) = text.as_chunks::<2>();
    pairs
        .iter()
        .map(|pair| spelled(*pair))
        .eq(t.iter().copied())
}
