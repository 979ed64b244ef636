// Reads the recorded answers (oracle/README.md, "Recorded answers"): parts of a line, and numbers and bytes in them; and counts the lines that agree.
//
// Each function is shown safe and ending, on any bytes. A number that is too long or no number is read as some number; what is compared with it
// then does not agree.
#![tactic(auto)]

pub mod machine;
pub mod rows;

ghost use Rattle.std.specs.Prelude.{◌≡◌, ◌+◌, ◌-◌, ◌*◌, ◌^◌, ◌≤◌, ◌<◌, length, take};

use std::io;
use std::io::Read;
use text::input::read_full;

// The most bytes of recorded lines that are read.
const MOST_RECORDED: usize = 524288;

// The room for the recorded lines. It is no local of the function below, whose proof would not close over an array of this length.
fn room() -> [u8; MOST_RECORDED] {
    [0u8; MOST_RECORDED]
}

// Reads the recorded lines, and does this with them.
pub fn on_lines<R: Read, F: FnOnce(&[u8]) -> io::Result<()>>(
    from: &mut R,
    with: F,
) -> io::Result<()>
    requires { F.IsAlwaysCallable with }
{
    let mut space = room();
    let n = read_full(from, &mut space)?;
    with(&space[..n])
}

// Where the stretch that begins at `from` ends: at the next `stop`, or where the text does. This, `behind` and `part` are what `field` and `rest`
// rest on: the library's `split(..).nth(k)` gives no place to go on from.
pub fn until(text: &[u8], from: usize, stop: u8) -> usize
    requires { from ≤ length text.now }
    ensures { (from ≤ result) × (result ≤ length text.now) }
{
    match text[from..].iter().position(|b| *b == stop) {
        Some(n) => from + n,
        None => text.len(),
    }
}

// The place behind what stands at `at`, or the end.
pub fn behind(text: &[u8], at: usize) -> usize
    requires { at ≤ length text.now }
    ensures { (at ≤ result) × (result ≤ length text.now) }
{
    text.len().min(at + 1)
}

// The value of a hexadecimal digit, and so of a decimal one. The library's `to_digit` is of a char that may be none, and takes capitals too.
fn digit(c: u8) -> u8
    ensures { result < 16 }
{
    match c {
        b'0'..=b'9' => c - b'0',
        b'a'..=b'f' => c - b'a' + 10,
        _ => 0,
    }
}

// The first number of a text. No digit is read behind one that makes it as large as `most`. The library's `parse` refuses what is read here as some
// number.
fn number(text: &[u8], base: u64, most: u64) -> u64
    requires { (most - 1) * base + 15 < 2 ^ 64 }
{
    let mut v: u64 = 0;
    for c in text {
        if *c == b' ' || v >= most {
            return v;
        }
        v = v * base + u64::from(digit(*c));
    }
    v
}

// The first decimal number of a text, at most 19 digits long.
pub fn decimal(text: &[u8]) -> u64 {
    number(text, 10, 1000000000000000000)
}

// The first hexadecimal number of a text, at most 16 digits long.
fn hexadecimal(text: &[u8]) -> u64 {
    number(text, 16, 1152921504606846976)
}

// Where the part of this number begins, parts parted by `stop`; the end where there are fewer.
pub fn part(text: &[u8], k: usize, stop: u8) -> usize
    ensures { result ≤ length text.now }
{
    let mut at: usize = 0;
    for _ in 0..k {
        at = behind(text, until(text, at, stop));
    }
    at
}

// The part of this number; nothing where there are fewer.
pub fn field(text: &[u8], k: usize, stop: u8) -> &[u8]
    ensures { length result.now ≤ length text.now }
{
    let from = part(text, k, stop);
    &text[from..until(text, from, stop)]
}

// What begins with the part of this number, to the end of the text; nothing where there are fewer.
pub fn rest(text: &[u8], k: usize, stop: u8) -> &[u8]
    ensures { length result.now ≤ length text.now }
{
    &text[part(text, k, stop)..]
}

// The byte that two hexadecimal digits spell.
fn spelled(digits: [u8; 2]) -> u8 {
    digit(digits[0]) * 16 + digit(digits[1])
}

// The bytes that a text spells in hexadecimal, as many as there is room for; how many, since there is no heap.
pub fn bytes(text: &[u8], out: &mut [u8]) -> usize
    ensures { (result ≤ length out.new) × (result ≡ length (take result out.new)) }
{
    let (pairs, _) = text.as_chunks::<2>();
    for (byte, pair) in out.iter_mut().zip(pairs) {
        *byte = spelled(*pair);
    }
    out.len().min(pairs.len())
}

// How many of the cases agree, to standard output.
pub fn print<P: Print>(to: &P, agree: u64, cases: u64, what: &[u8]) -> io::Result<()> {
    print!(to; "{agree} of {cases}")?;
    to.write_all(what)
}

// A line without its line feed.
fn bare(line: &[u8]) -> &[u8] {
    match line {
        [bare @ .., b'\n'] => bare,
        _ => line,
    }
}

// Of how many lines of a text is this so?
fn lines_where<F: Fn(&[u8]) -> bool>(text: &[u8], holds: F) -> usize
    requires { F.IsAlwaysCallable holds }
    ensures { result ≤ length text.now }
{
    text.split_inclusive(|b| *b == b'\n')
        .filter(|line| holds(bare(line)))
        .count()
}

// How many lines a text has.
pub fn lines(text: &[u8]) -> usize
    ensures { result ≤ length text.now }
{
    lines_where(text, |_| true)
}

// Of how many lines of a text `agrees` says so, to standard output. What it prints is compared.
pub fn replay<P: Print, F: Fn(&[u8]) -> bool>(
    to: &P,
    text: &[u8],
    what: &[u8],
    agrees: F,
) -> io::Result<()>
    requires { F.IsAlwaysCallable agrees }
{
    let agree = lines_where(text, agrees);
    print(to, agree as u64, lines(text) as u64, what)
}
