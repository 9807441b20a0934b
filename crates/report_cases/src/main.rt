// Reports of a used card, and of cards that are refused: the number is in the text.
// The card on standard input: Z=4, N=8, S=5, mounted, one plain file of 5,000 bytes at (1024,4) and (2048,1).
#![tactic(auto)]

ghost use Rattle.std.specs.Prelude.{◌≤◌, length, IfOk};

use requests::report::report;
use std::io;
use std::io::Read;

// Reads until the buffer is full or the input ends, and says how many bytes there are. Each read has all the room that is left, since of a
// message that finds less the rest is lost, and one that fails ends the program; std's `copy` reads 8,192 bytes at a time, and tries again.
fn read_full(input: &mut impl Read, buffer: &mut [u8]) -> io::Result<usize>
    ensures { IfOk result (λ n. n ≤ length buffer.new) }
{
    let mut done = 0;
    for _ in 0..u64::MAX {
        if done == buffer.len() {
            break;
        }
        let n = input.read(&mut buffer[done..])?;
        if n == 0 {
            break;
        }
        done += n;
    }
    Ok(done)
}

fn show(rt: &impl Print, books: &[u8]) -> io::Result<()> {
    let t = report(books, &[0u32; 0]);
    rt.write_all(t.as_bytes())
}

fn main(rt: HostRuntime) -> io::Result<()> {
    let mut books = [0u8; 5120];
    let n = read_full(&mut rt.stdin(), &mut books)?;
    show(&rt, &books[..n])?;
    // no whole number of sectors: 1
    let short = [0u8; 5119];
    show(&rt, &short)?;
    // a wrong mark: 2
    let mut marked = books;
    marked[0] = 0;
    show(&rt, &marked)?;
    // Z = 2: 3
    let mut zoned = books;
    zoned[133] = 2;
    show(&rt, &zoned)?;
    // sector 1029 set, and under no pointer: 4
    let mut set = books;
    set[3200] = 252;
    show(&rt, &set)
}
