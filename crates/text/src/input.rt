// What is read into a lent space.
ghost use Rattle.std.specs.Prelude.{◌≡◌, ◌≤◌, length, take, IfOk};

use std::io;
use std::io::Read;

// Reads until the space is full or the input ends; how many bytes were read.
pub fn read_full<R: Read>(from: &mut R, space: &mut [u8]) -> io::Result<usize>
    ensures { IfOk result (λ n. (n ≤ length space.new) × (n ≡ length (take n space.new))) }
{
    let mut n: usize = 0;
    // Reads come in pieces of any length; std's `read_exact` takes a short input for an error, and `read_to_end` wants a heap.
    while n < space.len() {
        let more = from.read(&mut space[n..])?;
        if more == 0 {
            return Ok(n);
        }
        n += more;
    }
    Ok(n)
}
