// Reads a tree file from standard input and prints the rows of its finished machine, or R and the number that refuses it.
//
// What is printed is `printed::finlist`'s answer, whole; the program only reads and writes.
#![tactic(auto)]

use std::io;
use text::input::read_full;

fn print<P: Print>(to: &P, input: &[u8]) -> io::Result<()> {
    let mut out = [0u8; printed::MOST_PRINTED];
    let n = printed::finlist(input, &mut out);
    to.write_all(&out[..n])
}

fn main(rt: HostRuntime) -> io::Result<()> {
    let mut buf = [0u8; printed::MOST_READ];
    let n = read_full(&mut rt.reader(), &mut buf)?;
    print(&rt, &buf[..n])
}
