// Replays recorded listings: each line of standard input has a file and what finlist prints for it (oracle/README.md). Prints how many agree.
//
// It has no contract but to be safe and to end; what it prints is compared.
#![tactic(auto)]

use recorded::{bytes, field, on_lines, replay, rest};
use std::io;

// In a recorded line `/` stands for a line feed.
fn recorded_as(b: u8) -> u8 {
    if b == b'\n' { b'/' } else { b }
}

fn same(printed: &[u8], row: &[u8]) -> bool {
    let recorded = printed.iter().map(|b| recorded_as(*b));
    recorded.eq(row.iter().copied())
}

fn agrees(file: &[u8], row: &[u8]) -> bool {
    let mut out = [0u8; printed::MOST_PRINTED];
    let n = printed::finlist(file, &mut out);
    same(&out[..n], row)
}

// A line: the file in hexadecimal and what is printed, parted by `;`.
fn line(text: &[u8]) -> bool {
    let mut file = [0u8; printed::MOST_READ];
    let n = bytes(field(text, 0, b';'), &mut file);
    agrees(&file[..n], rest(text, 1, b';'))
}

fn main(rt: HostRuntime) -> io::Result<()> {
    on_lines(&mut rt.reader(), |text| {
        replay(&rt, text, b" listings agree\n", line)
    })
}
