// Place header: a file gets a header, in the books and in the body; the header that it had is free, and its id is 0.
ghost use Rattle.std.specs.Prelude.{◌≡◌, ◌≤◌, ◌<◌, length, IfOk};
ghost use Rattle.field.specs.Says.{Says};
ghost use Rattle.tables.specs.Refusals.{number_of};
ghost use Rattle.tables.specs.Books.{GoodSome};
ghost use Rattle.tables.specs.Gates.{Gate};
ghost use Rattle.tables.specs.Places.{places_of};
ghost use Rattle.tables.specs.Views.{view_of, Parent};
ghost use Rattle.allocation.specs.Headers.{header_place};
ghost use Rattle.files.specs.HeaderBytes.{header_sectors};
ghost use Rattle.requests.specs.Header.{HeaderAllowed, place_header_tests, header_placed, HeaderPlaced};

use crate::body::check_lent;
use crate::named::check_usable;
use crate::state::put_state;
use allocation::choice::Found;
use allocation::header::{header_place, run_start};
use files::header::head_file;
use files::header_bytes::{header_sectors, lay_header, mark_header};
use files::sectors::body_place;
use tables::books::Books;
use tables::date::date_valid;
use tables::index::{WRITE_PROTECTED, attribute, table};
use tables::kinds::Index;
use tables::places::{Places, read_places};
use tables::refusal::Refusal;

// The most bytes that a header may hold: 32 sectors, without its id and length.
const MOST: usize = 32762;

// Is the header not too long, and the date valid?
fn header_allowed(long: usize, date: &[u8]) -> bool
    ensures { Says result (HeaderAllowed long date.now) }
{
    if long > MOST {
        return false;
    }
    date_valid(date)
}

// The place of the header, where no number applies.
fn check_place_header(
    b: &[u8],
    withheld: &[u32],
    body: &[u8],
    id: u32,
    long: usize,
    date: &[u8],
) -> Result<Found, Refusal>
    ensures gate { Gate (place_header_tests b.now withheld.now body.now id long date.now) (number_of result) }
    ensures place { IfOk result (λ k. (k ≡ header_place (view_of (places_of b.now) b.now) (header_sectors long)) × (k.zone.0 < (places_of b.now).zones)) }
{
    check_lent(b, withheld, body, header_allowed(long, date))?;
    let p = read_places(b);
    let v = Books { raw: b, places: p };
    check_usable(&v, id, WRITE_PROTECTED)?;
    let Some(k) = header_place(&v, header_sectors(long)) else {
        return Err(Refusal::NoRoom);
    };
    Ok(k)
}

// The books with a header of n sectors at k for file f, and the date stored.
fn put_headed(b: &mut [u8], p: Places, f: Index, n: u32, k: Found, date: &[u8])
    requires good_some { GoodSome b.old p }
    requires parent { Parent (view_of p b.old) f.0 }
    requires le_n { (1 ≤ n) × (n ≤ 32) }
    requires k_value { (k ≡ header_place (view_of p b.old) n) × (k.zone.0 < p.zones) }
    requires date_len { length date.now ≡ 6 }
    ensures { b.new ≡ header_placed b.old f.0 n date.now }
{
    let a = attribute(table(&Books { raw: b, places: p }, f));
    head_file(b, p, f, n, k);
    put_state(b, p, f, a, date);
}

// The body first: the old header's place is read from the books as they are.
pub fn place_header(
    b: &mut [u8],
    withheld: &[u32],
    body: &mut [u8],
    id: u32,
    content: &[u8],
    date: &[u8],
) -> Result<(), Refusal>
    ensures { HeaderPlaced b.old withheld.now body.old id content.now date.now (number_of result) b.new body.new }
{
    let k = check_place_header(b, withheld, body, id, content.len(), date)?;
    let p = read_places(b);
    let f = Index(id);
    let n = header_sectors(content.len());
    lay_header(body, body_place(run_start(k)), f, content);
    mark_header(&Books { raw: b, places: p }, f, 0, body);
    put_headed(b, p, f, n, k, date);
    Ok(())
}
