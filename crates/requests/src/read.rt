// Read: a file's sectors, from a position on, to the caller's buffer.
ghost use Rattle.std.specs.Prelude.{◌≡◌, ◌<◌};
ghost use Rattle.tables.specs.Refusals.{number_of};
ghost use Rattle.tables.specs.Gates.{Gate};
ghost use Rattle.tables.specs.Books.{GoodSome};
ghost use Rattle.tables.specs.Views.{books_view, Parent};
ghost use Rattle.requests.specs.Read.{read_tests, read_amount, ReadOut};
ghost use Rattle.requests.specs.Moving.{end_of};

use crate::argument::check_argument;
use crate::body::body_sized;
use crate::moving::{end_of, move_allowed, whole_sectors};
use crate::named::check_usable;
use files::sectors::read_sectors;
use tables::books::Books;
use tables::index::READ_PROTECTED;
use tables::kinds::Index;
use tables::places::read_places;
use tables::refusal::Refusal;
use tables::sizes::SECTOR;

fn check_read(
    b: &[u8],
    withheld: &[u32],
    body: &[u8],
    id: u32,
    position: Option<u32>,
    long: Option<u32>,
    room: usize,
) -> Result<(), Refusal>
    ensures { Gate (read_tests b.now withheld.now body.now id position long room) (number_of result) }
{
    check_argument(b, withheld, move_allowed(position, long, room))?;
    if !body_sized(b, body) {
        return Err(Refusal::WrongBody);
    }
    let p = read_places(b);
    let v = Books { raw: b, places: p };
    check_usable(&v, id, READ_PROTECTED)?;
    let f = Index(id);
    if position.unwrap_or(0) >= end_of(&v, f) {
        return Err(Refusal::PastEnd);
    }
    Ok(())
}

// The smaller of the wanted bytes and what remains.
fn read_amount(b: &Books<'_>, f: Index, at: u32, long: u32) -> u32
    requires good_some { GoodSome b.now.raw.now b.now.places }
    requires parent { Parent (books_view b.now) f.0 }
    requires at_bound { at < end_of b.now.raw.now f.0 }
    ensures { result ≡ read_amount b.now.raw.now f.0 at long }
{
    let wanted = whole_sectors(long);
    let left = end_of(b, f) - at;
    if wanted <= left {
        return wanted;
    }
    left
}

pub fn read(
    b: &[u8],
    withheld: &[u32],
    body: &[u8],
    id: u32,
    position: Option<u32>,
    long: Option<u32>,
    exchange: bool,
    out: &mut [u8],
) -> Result<u32, Refusal>
    ensures { ReadOut b.now withheld.now body.now id position long exchange out.old result out.new }
{
    check_read(b, withheld, body, id, position, long, out.len())?;
    let p = read_places(b);
    let v = Books { raw: b, places: p };
    let f = Index(id);
    let at = position.unwrap_or(0);
    let amount = read_amount(&v, f, at, long.unwrap_or(0));
    read_sectors(&v, f, at / SECTOR, amount / SECTOR, exchange, body, out);
    Ok(amount)
}
