// What finlist prints for a file, as bytes: shown equal to `finlist` of `rules`, with every byte behind them as it was. The lent array is as long
// as the longest listing, so `finlist` asks nothing.
#![tactic(auto)]

ghost use Rattle.std.specs.Prelude.{◌≤◌, length};
ghost use Rattle.params.specs.Told.{numberOf};
ghost use Rattle.rules.specs.Listing as Listing;
ghost use Rattle.text.specs.Wrote.{Prints};

use finish::finish;
use listing::listing::listing;
use listing::row::row_r;
use params::limits::{BYTE_BITS, CHAR_BITS, MOST_NODES, NAME_BITS};
use params::options::CodegenOptions;
use params::refusal::Refusal;
use text::Writer;

// The bytes of a file that is read at most.
pub const FINLIST_BYTES: usize = 8192;

// What a program reads of a file: one byte more, so that a longer one is seen to be too long.
pub const MOST_READ: usize = FINLIST_BYTES + 1;

// What is lent, in arrays, since there is no heap: words of sections, instructions and numbers, and of the others as many as any file counts.
const SECTIONS: usize = 2048;

const INSTRUCTIONS: usize = 4096;

const NUMBERS: usize = 1024;

// A string is a node.
const STRINGS: usize = MOST_NODES;

// As many as the bits of the longest tree file hold.
const CHARACTERS: usize = params::limits::MOST_BYTES * BYTE_BITS / CHAR_BITS;

// As many as the field of their count holds.
const NAMES: usize = (1 << NAME_BITS) - 1;

// The bytes of a listing at most. A row takes two, for its letter and the line feed; with its blank a field below 65,536 takes 6, another count or
// register 21, a signed number 22, a text two and two a character. So M takes 2 + 5 * 21, N 2 + 6 + 22, T 2 + 2 * 6 + 2 and its characters',
// V 2 + 6 + 21, S 2 + 4 * 6 + 21, I 2 + 4 * 6.
pub const MOST_PRINTED: usize = 107
    + 30 * NUMBERS
    + (16 * STRINGS + 2 * CHARACTERS)
    + 29 * NAMES
    + 47 * SECTIONS
    + 26 * INSTRUCTIONS;

// R and the number of a refusal; answers how many bytes are printed.
fn refuse(out: &mut [u8], r: Refusal) -> usize
    requires { length (Listing.refusal (numberOf r)) ≤ length out.old }
    ensures { Prints out.old out.new result (Listing.refusal (numberOf r)) }
{
    let mut to = Writer::new(out);
    row_r(&mut to, r.number());
    to.at
}

// Answers how many bytes are printed.
#[tactic(auto, using(crate::proofs::Lengths::refusal_length))]
pub fn finlist(input: &[u8], out: &mut [u8; MOST_PRINTED]) -> usize
    ensures { Prints out.old out.new result (Listing.finlist input.now) }
{
    if input.len() > FINLIST_BYTES {
        return refuse(out, Refusal::TooLong);
    }
    let options = CodegenOptions {
        protect_locals: false,
        protect_globals: true,
    };
    let mut sections = [0u64; SECTIONS];
    let mut instructions = [0u64; INSTRUCTIONS];
    let mut numbers = [0i64; NUMBERS];
    let mut strings = [0u32; STRINGS];
    let mut pool = [0u8; CHARACTERS];
    let mut names = [0u16; NAMES];
    let answer = finish(
        input,
        options,
        &mut sections,
        &mut instructions,
        &mut numbers,
        &mut strings,
        &mut pool,
        &mut names,
    );
    match answer {
        Err(r) => refuse(out, r),
        Ok(c) => listing(
            out,
            c,
            &sections,
            &instructions,
            &numbers,
            &strings,
            &pool,
            &names,
        ),
    }
}
