// The report program: books from standard input, their report to standard output.
// Books of more than 65,536 bytes are refused as 1: one byte more is read, which no number of whole sectors has.
#![tactic(auto)]

ghost use Rattle.std.specs.Prelude.{◌≤◌, length, IfOk};

use requests::report::report;
use std::io;
use std::io::Read;

// Reads until the buffer is full or the input ends, and says how many bytes there are. Each read has all the room that is left, since of a
// message that finds less the rest is lost, and one that fails ends the program; std's `copy` reads 8,192 bytes at a time, and tries again.
fn read_full(input: &mut impl Read, buffer: &mut [u8]) -> io::Result<usize>
    ensures { IfOk result (λ n. n ≤ length buffer.new) }
{
    let mut done = 0;
    for _ in 0..u64::MAX {
        if done == buffer.len() {
            break;
        }
        let n = input.read(&mut buffer[done..])?;
        if n == 0 {
            break;
        }
        done += n;
    }
    Ok(done)
}

fn main(rt: HostRuntime) -> io::Result<()> {
    let mut books = [0u8; 65537];
    let n = read_full(&mut rt.stdin(), &mut books)?;
    rt.write_all(report(&books[..n], &[0u32; 0]).as_bytes())
}
