// Replays recorded machines and texts: each line of standard input has an operation, a machine, and what the judge says of both; or string words, a
// pool, a register, and its text (oracle/README.md). Prints how many agree: answer, counts and every lent word; every byte of a text.
//
// It has no contract but to be safe and to end; what it prints is compared.
#![tactic(auto)]

use recorded::machine::{self, Tables, words_of};
use recorded::rows::{read, spells_bytes};
use recorded::{bytes, decimal, field, on_lines, replay, rest};
use std::io;
use tables::answer::Answer;
use tables::counts::Counts;
use tables::text::text;
use words::instr::StrReg;

// Is this the answer of the row, with its words or, where it is refused, with those before?
fn agrees(answer: Answer, before: &[u8], row: &[u8], tables: Tables<'_>) -> bool {
    match answer {
        Err(r) => machine::refused(row, r.number()) & machine::has_tables(before, tables),
        Ok(c) => (machine::counts(row) == c) & machine::has_tables(row, tables),
    }
}

// Does the operation on a machine agree with the row? It runs on tables that hold what is recorded before it.
fn machine_agrees<
    F: FnOnce(Counts, &mut [u64], &mut [u64], &mut [i64], &mut [u32], &[u8], &[u16]) -> Answer,
>(operation: F, before: &[u8], row: &[u8]) -> bool
    requires { F.IsAlwaysCallable operation }
{
    let mut sections = [0u64; 64];
    let mut instructions = [0u64; 256];
    let mut numbers = [0i64; 64];
    let mut strings = [0u32; 32];
    let mut pool = [0u8; 128];
    let mut names = [0u16; 32];
    let s = words_of(before, machine::SECTIONS, &mut sections);
    let i = words_of(before, machine::INSTRUCTIONS, &mut instructions);
    let n = words_of(before, machine::NUMBERS, &mut numbers);
    let t = words_of(before, machine::STRINGS, &mut strings);
    let p = machine::pool_of(before, &mut pool);
    let m = words_of(before, machine::NAMES, &mut names);
    let answer = operation(
        machine::counts(before),
        &mut sections[..s],
        &mut instructions[..i],
        &mut numbers[..n],
        &mut strings[..t],
        &pool[..p],
        &names[..m],
    );
    let tables = Tables {
        sections: &sections[..s],
        instructions: &instructions[..i],
        numbers: &numbers[..n],
        strings: &strings[..t],
        pool: &pool[..p],
        names: &names[..m],
    };
    agrees(answer, before, row, tables)
}

// A line: M, the operation, the machine before it, the row, parted by `;`. The operation goes by its second letter: replace, clean, combine, of which
// only the first writes numbers and strings.
fn machine_line(line: &[u8]) -> bool {
    let before = field(line, 2, b';');
    let row = rest(line, 3, b';');
    match rest(line, 1, b';').get(1) {
        Some(b'e') => machine_agrees(replace::replace::replace, before, row),
        Some(b'l') => machine_agrees(
            |c, s, i, n, t, p, m| clean::clean::clean(c, s, i, n, t, p, m),
            before,
            row,
        ),
        Some(_) => machine_agrees(
            |c, s, i, n, t, p, m| combine::combine(c, s, i, n, t, p, m),
            before,
            row,
        ),
        None => false,
    }
}

// A line: X, the string words, the pool, the register, its text, parted by `;`.
fn text_line(line: &[u8]) -> bool {
    let mut strings = [0u32; 32];
    let mut pool = [0u8; 128];
    let n = read(field(line, 1, b';'), &mut strings);
    let p = bytes(field(line, 2, b';'), &mut pool);
    let register = StrReg((decimal(field(line, 3, b';')) % 65536) as u16);
    spells_bytes(
        rest(line, 4, b';'),
        text(&strings[..n], &pool[..p], register),
    )
}

// A line of either kind, by its letter.
fn line(line: &[u8]) -> bool {
    match line.first() {
        Some(b'X') => text_line(line),
        Some(_) => machine_line(line),
        None => false,
    }
}

fn main(rt: HostRuntime) -> io::Result<()> {
    on_lines(&mut rt.reader(), |text| {
        replay(&rt, text, b" machines and texts agree\n", line)
    })
}
