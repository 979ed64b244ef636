// Replays recorded trees: each line of standard input has a file and what the judge says of it (oracle/README.md). Prints how many sizes, lowered
// machines and finished machines agree: a refusal's number, or the counts and every word that they count.
//
// It has no contract but to be safe and to end; what it prints is compared.
#![tactic(auto)]

use params::options::CodegenOptions;
use recorded::machine::{self, Tables};
use recorded::{bytes, decimal, field, lines, on_lines, print, rest};
use std::io;
use tables::answer::Answer;
use tree::Sizes;

// Are these the six sizes of the row? What stands behind them is not looked at.
fn sized(row: &[u8], z: Sizes) -> bool {
    let sizes = [
        z.lines,
        z.names,
        z.statements as u64,
        z.nodes as u64,
        z.strings as u64,
        z.characters as u64,
    ];
    let numbers = row.split_inclusive(|b| *b == b' ').map(|n| decimal(n));
    numbers.take(sizes.len()).eq(sizes.iter().copied())
}

// Does the size of a file agree with its row?
fn size_agrees(file: &[u8], row: &[u8]) -> bool {
    match tree::size(file) {
        Ok(z) => sized(row, z),
        Err(r) => machine::refused(row, r.number()),
    }
}

// Does the machine that is built of a file agree with its row?
fn machine_agrees<
    F: FnOnce(
        &[u8],
        CodegenOptions,
        &mut [u64],
        &mut [u64],
        &mut [i64],
        &mut [u32],
        &mut [u8],
        &mut [u16],
    ) -> Answer,
>(build: F, file: &[u8], options: CodegenOptions, row: &[u8]) -> bool
    requires { F.IsAlwaysCallable build }
{
    let mut sections = [0u64; 512];
    let mut instructions = [0u64; 1024];
    let mut numbers = [0i64; 256];
    let mut strings = [0u32; 32];
    let mut pool = [0u8; 256];
    let mut names = [0u16; 32];
    let answer = build(
        file,
        options,
        &mut sections,
        &mut instructions,
        &mut numbers,
        &mut strings,
        &mut pool,
        &mut names,
    );
    let tables = Tables {
        sections: &sections,
        instructions: &instructions,
        numbers: &numbers,
        strings: &strings,
        pool: &pool,
        names: &names,
    };
    match answer {
        Ok(c) => machine::is_machine(row, c, tables),
        Err(r) => machine::refused(row, r.number()),
    }
}

// By the digit of the options: bit 0 protects locals, bit 1 globals. There are none where the line ends.
fn options(line: &[u8]) -> Option<CodegenOptions> {
    let digit = rest(line, 2, b';').first()?;
    Some(CodegenOptions {
        protect_locals: matches!(digit, b'1' | b'3'),
        protect_globals: matches!(digit, b'2' | b'3'),
    })
}

// The number of the part that has the row: a refusal of the sizes stands for all of them.
fn part_of(line: &[u8], k: usize) -> usize {
    match rest(line, 3, b';') {
        [b'R', ..] => 3,
        _ => k,
    }
}

fn row(line: &[u8], k: usize) -> &[u8] {
    field(line, part_of(line, k), b';')
}

// A row that may be the last: it goes to the line's end.
fn last_row(line: &[u8], k: usize) -> &[u8] {
    rest(line, part_of(line, k), b';')
}

// Of the sizes, lowered machines and finished ones of some lines, how many agree. There are far fewer lines than a count holds.
#[derive(Clone, Copy, Default)]
struct Agree {
    sizes: u64,
    lowered: u64,
    finished: u64,
}

impl Agree {
    fn and(self, sizes: bool, lowered: bool, finished: bool) -> Agree {
        Agree {
            sizes: self.sizes.saturating_add(u64::from(sizes)),
            lowered: self.lowered.saturating_add(u64::from(lowered)),
            finished: self.finished.saturating_add(u64::from(finished)),
        }
    }

    // A line more: T, the file in hexadecimal, the options, the sizes, the lowered machine, the finished machine, parted by `;`. Its file is spelled
    // out once for all three.
    fn with(self, line: &[u8]) -> Agree {
        let Some(options) = options(line) else {
            return self;
        };
        let mut file = [0u8; 1024];
        let n = bytes(field(line, 1, b';'), &mut file);
        let file = &file[..n];
        self.and(
            size_agrees(file, row(line, 3)),
            machine_agrees(lower::lower, file, options, row(line, 4)),
            machine_agrees(finish::finish, file, options, last_row(line, 5)),
        )
    }
}

// The lines are gone over once.
fn all_lines(text: &[u8]) -> Agree {
    text.split_inclusive(|b| *b == b'\n')
        .fold(Agree::default(), |agree, line| {
            agree.with(line.strip_suffix(b"\n").unwrap_or(line))
        })
}

fn main(rt: HostRuntime) -> io::Result<()> {
    on_lines(&mut rt.reader(), |text| {
        let agree = all_lines(text);
        let cases = lines(text) as u64;
        print(&rt, agree.sizes, cases, b" sizes agree\n")?;
        print(&rt, agree.lowered, cases, b" lowered machines agree\n")?;
        print(&rt, agree.finished, cases, b" finished machines agree\n")
    })
}
