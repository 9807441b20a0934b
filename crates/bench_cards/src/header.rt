// The day with headers: two curves get headers, which are shown, replaced and refused; then both curves are given back, and the zone of
// their headers is open again.
use crate::card::{create_on, formatted, mounted, space};
use crate::curve::{give_back, make, mark, read_at, take_back, write_at};
use crate::line::{half, number_of, say, say_header, say_number, say_pair, say_zones, word};
use field::parts::{bytes_all, same};
use requests::place_header::place_header;
use requests::set_protection::set_protection;
use requests::show_header::{check_header, show_header};
use std::io;
use std::num::wrapping_add_u8;

// Byte i becomes step * i + i / 256, modulo 256: no two sectors of a header are alike.
fn fill(content: &mut [u8], step: u8) {
    let mut v: u8 = 0;
    for (i, byte) in content.iter_mut().enumerate() {
        *byte = wrapping_add_u8(v, (i / 256 % 256) as u8);
        v = wrapping_add_u8(v, step);
    }
}

// The first `long` bytes of a content.
fn start(content: &[u8], long: usize) -> &[u8] {
    if long > content.len() {
        return content;
    }
    &content[0..long]
}

fn place(
    rt: &impl Print,
    books: &mut [u8],
    body: &mut [u8],
    id: u32,
    content: &[u8],
) -> io::Result<()> {
    let date = b"\x07\xea\x01\x02\x03\x0f";
    let answer = place_header(books, &[0u32; 0], body, id, content, date);
    say_number(rt, b"place header id=", id)?;
    say(rt, b" long=")?;
    print!(rt; "{}", content.len())?;
    say_number(rt, b" number=", number_of(answer))?;
    say_header(rt, books, id)?;
    say_zones(rt, books)?;
    say(rt, b"\n")
}

// After its first six bytes, has the header the content wanted, then nulls?
fn holds(part: &[u8], content: &[u8]) -> bool {
    if part.len() < 6 {
        return false;
    }
    let rest = part.len() - 6;
    if content.len() > rest {
        return false;
    }
    if !same(part, 6, content) {
        return false;
    }
    bytes_all(part, 6 + content.len(), rest - content.len(), 0)
}

// The header's first two numbers, the file's id and the content's length, and what follows them.
fn say_content(rt: &impl Print, part: &[u8], content: &[u8]) -> io::Result<()> {
    say(rt, b" begins=")?;
    say_pair(rt, word(part, 0), half(part, 4))?;
    if holds(part, content) {
        return say(rt, b" content=wanted");
    }
    say(rt, b" content=other")
}

fn show(rt: &impl Print, books: &[u8], body: &[u8], id: u32, content: &[u8]) -> io::Result<()> {
    let part = show_header(books, &[0u32; 0], body, id);
    say_number(rt, b"show header id=", id)?;
    let answer = check_header(books, &[0u32; 0], body, id);
    say_number(rt, b" number=", number_of(answer))?;
    say(rt, b" len=")?;
    print!(rt; "{}", part.len())?;
    if part.len() > 0 {
        say_content(rt, part, content)?;
    }
    say(rt, b"\n")
}

// The number with which a sector of the body begins.
fn begins(rt: &impl Print, body: &[u8], sector: u32) -> io::Result<()> {
    if sector < 1024 {
        return Ok(());
    }
    if sector > 4095 {
        return Ok(());
    }
    say_number(rt, b"sector ", sector)?;
    let at = 1024 * (sector as usize - 1024);
    say_number(rt, b" begins ", word(body, at))?;
    say(rt, b"\n")
}

// The zones, and how many sectors are in use.
fn used(rt: &impl Print, books: &[u8]) -> io::Result<()> {
    say(rt, b"now")?;
    say_zones(rt, books)?;
    say(rt, b" ")?;
    space(rt, books)
}

fn protect(rt: &impl Print, books: &mut [u8], id: u32, weights: u32) -> io::Result<()> {
    let date = b"\x07\xea\x01\x02\x03\x0a";
    let answer = set_protection(books, &[0u32; 0], id, weights, date);
    say_number(rt, b"protect ", weights)?;
    say_number(rt, b" number=", number_of(answer))?;
    say(rt, b"\n")
}

// The first header opens zone 3; each takes the lowest sectors in a row that are free.
fn placing(
    rt: &impl Print,
    books: &mut [u8],
    body: &mut [u8],
    first: &[u8],
    second: &[u8],
) -> io::Result<()> {
    show(rt, books, body, 1, start(first, 100))?;
    used(rt, books)?;
    place(rt, books, body, 1, start(first, 100))?;
    used(rt, books)?;
    show(rt, books, body, 1, start(first, 100))?;
    place(rt, books, body, 2, start(second, 1019))?;
    show(rt, books, body, 2, start(second, 1019))?;
    used(rt, books)
}

// A new header is placed before the old one goes, so it never has the same sectors.
fn replacing(rt: &impl Print, books: &mut [u8], body: &mut [u8], second: &[u8]) -> io::Result<()> {
    place(rt, books, body, 1, start(second, 3000))?;
    show(rt, books, body, 1, start(second, 3000))?;
    begins(rt, body, 2048)?;
    place(rt, books, body, 2, b"")?;
    show(rt, books, body, 2, b"")?;
    begins(rt, body, 2049)
}

// A header that is too long leaves the one there is.
fn refusing(rt: &impl Print, books: &mut [u8], body: &mut [u8], second: &[u8]) -> io::Result<()> {
    place(rt, books, body, 1, start(second, 32763))?;
    show(rt, books, body, 1, start(second, 3000))?;
    used(rt, books)
}

// Write protection refuses a new header, read protection to show the one there is.
fn protecting(
    rt: &impl Print,
    books: &mut [u8],
    body: &mut [u8],
    first: &[u8],
    second: &[u8],
) -> io::Result<()> {
    protect(rt, books, 1, 4)?;
    place(rt, books, body, 1, start(first, 1))?;
    show(rt, books, body, 1, start(second, 3000))?;
    protect(rt, books, 1, 8)?;
    show(rt, books, body, 1, start(second, 3000))?;
    protect(rt, books, 1, 0)
}

// The header follows its file: it begins with minus the id,
fn deleting(
    rt: &impl Print,
    books: &mut [u8],
    body: &mut [u8],
    first: &[u8],
    second: &[u8],
) -> io::Result<()> {
    begins(rt, body, 2051)?;
    mark(rt, books, body, 1)?;
    begins(rt, body, 2051)?;
    show(rt, books, body, 1, start(second, 3000))?;
    place(rt, books, body, 1, start(first, 1))?;
    recovering(rt, books, body, second)
}

// with the id,
fn recovering(rt: &impl Print, books: &mut [u8], body: &mut [u8], second: &[u8]) -> io::Result<()> {
    take_back(rt, books, body, 1)?;
    begins(rt, body, 2051)?;
    show(rt, books, body, 1, start(second, 3000))?;
    read_at(rt, b"read", books, body, 0, 5120, false)?;
    leaving(rt, books, body)
}

// at last with 0, and its sectors are free.
fn leaving(rt: &impl Print, books: &mut [u8], body: &mut [u8]) -> io::Result<()> {
    mark(rt, books, body, 1)?;
    give_back(rt, books, body, 1)?;
    begins(rt, body, 2051)?;
    used(rt, books)
}

// The longest header; with the last file the last header goes.
fn emptying(rt: &impl Print, books: &mut [u8], body: &mut [u8], first: &[u8]) -> io::Result<()> {
    place(rt, books, body, 2, start(first, 32762))?;
    show(rt, books, body, 2, start(first, 32762))?;
    used(rt, books)?;
    mark(rt, books, body, 2)?;
    give_back(rt, books, body, 2)?;
    used(rt, books)
}

// A file of two zones then has room, and leaves none for a header.
fn filling(rt: &impl Print, card: [u8; 5120], body: &mut [u8], first: &[u8]) -> io::Result<()> {
    let mut books = card;
    create_on(rt, b"big", &card, &mut books, b"BIG", 2097152, 128)?;
    used(rt, &books)?;
    place(rt, &mut books, body, 2, start(first, 1))
}

// The card of two curves, the first of them written.
fn curves(rt: &impl Print, body: &mut [u8], first: &[u8]) -> io::Result<[u8; 5120]> {
    let mut books = mounted(rt, formatted(rt, 4, 8)?)?;
    make(rt, b"curve", &mut books, b"CURVE 60A")?;
    make(rt, b"another curve", &mut books, b"CURVE 100A")?;
    let curve = start(first, 5120);
    write_at(rt, b"write", &mut books, body, 0, 5120, false, curve)?;
    Ok(books)
}

fn headers_stand(
    rt: &impl Print,
    books: &mut [u8],
    body: &mut [u8],
    first: &[u8],
    second: &[u8],
) -> io::Result<()> {
    placing(rt, books, body, first, second)?;
    replacing(rt, books, body, second)?;
    refusing(rt, books, body, second)?;
    protecting(rt, books, body, first, second)
}

fn headers_go(
    rt: &impl Print,
    books: &mut [u8],
    body: &mut [u8],
    first: &[u8],
    second: &[u8],
) -> io::Result<()> {
    deleting(rt, books, body, first, second)?;
    emptying(rt, books, body, first)
}

fn day_with(rt: &impl Print, body: &mut [u8], first: &[u8], second: &[u8]) -> io::Result<()> {
    let mut books = curves(rt, body, first)?;
    headers_stand(rt, &mut books, body, first, second)?;
    headers_go(rt, &mut books, body, first, second)?;
    filling(rt, books, body, first)
}

// Both contents have a byte more than the longest header.
pub fn header_day(rt: &impl Print, body: &mut [u8]) -> io::Result<()> {
    let mut first = [0u8; 32763];
    let mut second = [0u8; 32763];
    fill(&mut first, 7);
    fill(&mut second, 11);
    day_with(rt, body, &first, &second)
}
