// Requests that move a curve's bytes between a buffer and the body, a line for each.
use crate::line::{number_of, say, say_number, say_pair};
use field::numbers::wide;
use requests::actual_delete::actual_delete;
use requests::amount::amount_of;
use requests::create_fixed::create_fixed;
use requests::read::read;
use requests::recover::recover;
use requests::refusal::Refusal;
use requests::show::show;
use requests::temporary_delete::temporary_delete;
use requests::write::write;
use std::io;
use tables::counts::chosen_types;

// The number and how many bytes were moved.
fn say_moved(rt: &impl Print, answer: Result<u32, Refusal>) -> io::Result<()> {
    match answer {
        Ok(n) => say_number(rt, b" number=0 moved=", n),
        Err(why) => say_number(rt, b" moved=0 number=", why.number()),
    }
}

// A fixed file of 5,000 bytes in blocks of one sector.
pub fn make(rt: &impl Print, step: &[u8], books: &mut [u8], name: &[u8]) -> io::Result<()> {
    let date = b"\x07\xea\x01\x02\x03\x05";
    let made = create_fixed(
        books,
        &[0u32; 0],
        name,
        amount_of(5000),
        chosen_types(4),
        0,
        date,
    );
    say(rt, step)?;
    match made {
        Ok(id) => say_number(rt, b" number=0 id=", id.0)?,
        Err(why) => say_number(rt, b" number=", why.number())?,
    }
    say(rt, b"\n")
}

pub fn write_at(
    rt: &impl Print,
    step: &[u8],
    books: &mut [u8],
    body: &mut [u8],
    position: i32,
    length: i32,
    exchange: bool,
    input: &[u8],
) -> io::Result<()> {
    let date = b"\x07\xea\x01\x02\x03\x0b";
    let at = amount_of(position);
    let long = amount_of(length);
    let answer = write(books, &[0u32; 0], body, 1, at, long, exchange, input, date);
    say(rt, step)?;
    say_moved(rt, answer)?;
    say(rt, b"\n")
}

// Reads into a buffer of 85s, and says its first two bytes and its last one.
pub fn read_at(
    rt: &impl Print,
    step: &[u8],
    books: &[u8],
    body: &[u8],
    position: i32,
    length: i32,
    exchange: bool,
) -> io::Result<()> {
    let mut out = [85u8; 5120];
    let at = amount_of(position);
    let long = amount_of(length);
    let answer = read(books, &[0u32; 0], body, 1, at, long, exchange, &mut out);
    say(rt, step)?;
    say_moved(rt, answer)?;
    say(rt, b" first=")?;
    say_pair(rt, wide(out[0]), wide(out[1]))?;
    say_number(rt, b" last=", wide(out[5119]))?;
    say(rt, b"\n")
}

// The k-th sector as it lies in the body: how long the part is, and its first two bytes.
pub fn show_at(rt: &impl Print, books: &[u8], body: &[u8], k: u32) -> io::Result<()> {
    let part = show(books, &[0u32; 0], body, 1, k);
    say_number(rt, b"show ", k)?;
    if part.len() < 2 {
        return say(rt, b" nothing\n");
    }
    say(rt, b" len=")?;
    print!(rt; "{}", part.len())?;
    say(rt, b" first=")?;
    say_pair(rt, wide(part[0]), wide(part[1]))?;
    say(rt, b"\n")
}

pub fn mark(rt: &impl Print, books: &mut [u8], body: &mut [u8], id: u32) -> io::Result<()> {
    let date = b"\x07\xea\x01\x02\x03\x0c";
    let answer = temporary_delete(books, &[0u32; 0], body, id, date);
    say_number(rt, b"temporary delete number=", number_of(answer))?;
    say(rt, b"\n")
}

pub fn take_back(rt: &impl Print, books: &mut [u8], body: &mut [u8], id: u32) -> io::Result<()> {
    let date = b"\x07\xea\x01\x02\x03\x0d";
    say_number(
        rt,
        b"recover number=",
        number_of(recover(books, &[0u32; 0], body, id, date)),
    )?;
    say(rt, b"\n")
}

pub fn give_back(rt: &impl Print, books: &mut [u8], body: &mut [u8], id: u32) -> io::Result<()> {
    let date = b"\x07\xea\x01\x02\x03\x0e";
    let answer = actual_delete(books, &[0u32; 0], body, id, date);
    say_number(rt, b"actual delete number=", number_of(answer))?;
    say(rt, b"\n")
}
