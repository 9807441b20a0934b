// Write: the caller's bytes to a file's sectors, from a position on; a variable file first grows.
ghost use Rattle.std.specs.Prelude.{◌≡◌, ◌+◌, ◌≤◌, ◌<◌, length};
ghost use Rattle.field.specs.Says.{Says};
ghost use Rattle.tables.specs.Refusals.{number_of};
ghost use Rattle.tables.specs.Gates.{Gate};
ghost use Rattle.tables.specs.Books.{GoodSome};
ghost use Rattle.tables.specs.Places.{places_of, Layout};
ghost use Rattle.tables.specs.Views.{books_view, view_of, Parent};
ghost use Rattle.requests.specs.Write.{WriteAllowed, Within, asked_length, move_tests, write_tests, settle, written_books, Writes, Wrote};

use crate::argument::check_argument;
use crate::body::body_sized;
use crate::longer::{check_lack, lengthen};
use crate::moving::{end_of, move_allowed, whole_sectors};
use crate::named::check_usable;
use crate::state::put_state;
use crate::variable::variable_size;
use files::sectors::write_sectors;
use tables::books::Books;
use tables::date::date_valid;
use tables::index::{WRITE_PROTECTED, WRITING, attribute, table};
use tables::kinds::Index;
use tables::places::read_places;
use tables::refusal::Refusal;
use tables::sizes::SECTOR;

fn write_allowed(position: Option<u32>, long: Option<u32>, room: usize, date: &[u8]) -> bool
    ensures { Says result (WriteAllowed position long room date.now) }
{
    if !move_allowed(position, long, room) {
        return false;
    }
    date_valid(date)
}

// May n bytes be written at this position?
fn within(b: &Books<'_>, f: Index, at: u32, n: u32) -> bool
    requires good_some { GoodSome b.now.raw.now b.now.places }
    requires parent { Parent (books_view b.now) f.0 }
    requires at_bound { (at ≤ 2147483647) × (n ≤ 2147483647) }
    ensures { Says result (Within b.now.raw.now f.0 at n) }
{
    let end = end_of(b, f);
    if at > end {
        return false;
    }
    if variable_size(b, f) {
        return true;
    }
    at + n <= end
}

// The byte length that the write asks for.
fn asked_length(b: &Books<'_>, f: Index, at: u32, n: u32) -> u32
    requires good_some { GoodSome b.now.raw.now b.now.places }
    requires parent { Parent (books_view b.now) f.0 }
    requires n_bound { at + n < 4294967296 }
    ensures { result ≡ asked_length b.now.raw.now f.0 at n }
{
    if n == 0 {
        return 0;
    }
    if !variable_size(b, f) {
        return 0;
    }
    at + n
}

// Numbers 8, 9, 10, 14, 12 and 13.
fn check_move(b: &Books<'_>, id: u32, at: u32, n: u32) -> Result<(), Refusal>
    requires good_some { GoodSome b.now.raw.now b.now.places }
    requires at_bound { (at ≤ 2147483647) × (n ≤ 2147483647) }
    ensures { Gate (move_tests b.now.raw.now id at n) (number_of result) }
{
    check_usable(b, id, WRITE_PROTECTED)?;
    let f = Index(id);
    if !within(b, f, at, n) {
        return Err(Refusal::PastEnd);
    }
    check_lack(b, f, asked_length(b, f, at, n))
}

fn check_write(
    b: &[u8],
    withheld: &[u32],
    body: &[u8],
    id: u32,
    position: Option<u32>,
    long: Option<u32>,
    room: usize,
    date: &[u8],
) -> Result<(), Refusal>
    ensures { Gate (write_tests b.now withheld.now body.now id position long room date.now) (number_of result) }
{
    check_argument(b, withheld, write_allowed(position, long, room, date))?;
    if !body_sized(b, body) {
        return Err(Refusal::WrongBody);
    }
    let p = read_places(b);
    check_move(
        &Books { raw: b, places: p },
        id,
        position.unwrap_or(0),
        whole_sectors(long.unwrap_or(0)),
    )
}

// Weight 2 of the attribute of file f is cleared, and the date stored.
fn settle(b: &mut [u8], f: Index, date: &[u8])
    requires layout { Layout (places_of b.old) (length b.old) }
    requires le_f { (1 ≤ f.0) × (f.0 ≤ (places_of b.old).indexes) × (length date.now ≡ 6) }
    ensures { b.new ≡ settle b.old f.0 date.now }
{
    let p = read_places(b);
    let a = attribute(table(&Books { raw: b, places: p }, f));
    put_state(b, p, f, a - a / WRITING % 2 * WRITING, date);
}

// The books once n bytes, some at least, are written at this position.
fn put_written(b: &mut [u8], f: Index, at: u32, n: u32, date: &[u8])
    requires good_some { GoodSome b.old (places_of b.old) }
    requires parent { Parent (view_of (places_of b.old) b.old) f.0 }
    requires writes { Writes b.old f.0 at n date.now }
    ensures { b.new ≡ written_books b.old f.0 at n date.now }
{
    let p = read_places(b);
    let long = asked_length(&Books { raw: b, places: p }, f, at, n);
    lengthen(b, f, long, date);
    settle(b, f, date);
}

pub fn write(
    b: &mut [u8],
    withheld: &[u32],
    body: &mut [u8],
    id: u32,
    position: Option<u32>,
    long: Option<u32>,
    exchange: bool,
    input: &[u8],
    date: &[u8],
) -> Result<u32, Refusal>
    ensures { Wrote b.old withheld.now body.old id position long exchange input.now date.now result b.new body.new }
{
    check_write(b, withheld, body, id, position, long, input.len(), date)?;
    let at = position.unwrap_or(0);
    let n = whole_sectors(long.unwrap_or(0));
    if n == 0 {
        return Ok(0);
    }
    let f = Index(id);
    put_written(b, f, at, n, date);
    let p = read_places(b);
    write_sectors(
        &Books { raw: b, places: p },
        f,
        at / SECTOR,
        n / SECTOR,
        exchange,
        input,
        body,
    );
    Ok(n)
}
