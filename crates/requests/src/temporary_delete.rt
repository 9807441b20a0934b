// Temporary delete: an active file is marked as deleted; its pointers and data stay, and its header, where it has one, begins with minus its
// id.
ghost use Rattle.tables.specs.Refusals.{number_of};
ghost use Rattle.tables.specs.Gates.{Gate};
ghost use Rattle.requests.specs.State.{remove_tests, Removed};

use crate::body::check_lent;
use crate::named::check_usable;
use crate::state::remove;
use files::header_bytes::mark_header;
use tables::books::Books;
use tables::date::date_valid;
use tables::index::{WRITE_PROTECTED, minus};
use tables::kinds::Index;
use tables::places::read_places;
use tables::refusal::Refusal;

fn check_remove(
    b: &[u8],
    withheld: &[u32],
    body: &[u8],
    id: u32,
    date: &[u8],
) -> Result<(), Refusal>
    ensures { Gate (remove_tests b.now withheld.now body.now id date.now) (number_of result) }
{
    check_lent(b, withheld, body, date_valid(date))?;
    let p = read_places(b);
    check_usable(&Books { raw: b, places: p }, id, WRITE_PROTECTED)
}

pub fn temporary_delete(
    b: &mut [u8],
    withheld: &[u32],
    body: &mut [u8],
    id: u32,
    date: &[u8],
) -> Result<(), Refusal>
    ensures { Removed b.old withheld.now body.old id date.now (number_of result) b.new body.new }
{
    check_remove(b, withheld, body, id, date)?;
    let p = read_places(b);
    let f = Index(id);
    mark_header(&Books { raw: b, places: p }, f, minus(f), body);
    remove(b, p, f, date);
    Ok(())
}
