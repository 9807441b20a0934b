// Show header: a file's header as it lies in the caller's body.
ghost use Rattle.tables.specs.Refusals.{number_of};
ghost use Rattle.tables.specs.Gates.{Gate};
ghost use Rattle.requests.specs.Header.{show_header_tests, HeaderShownAt, HeaderShown};

use crate::body::body_sized;
use crate::judged::check_use;
use crate::named::check_usable;
use crate::show::Part;
use files::sectors::body_place;
use tables::books::Books;
use tables::index::{HEADER, READ_PROTECTED, pointer_at, table};
use tables::kinds::Index;
use tables::places::read_places;
use tables::refusal::Refusal;
use tables::sizes::SECTOR_LEN;

// Show header's number.
pub fn check_header(b: &[u8], withheld: &[u32], body: &[u8], id: u32) -> Result<(), Refusal>
    ensures { Gate (show_header_tests b.now withheld.now body.now id) (number_of result) }
{
    check_use(b, withheld)?;
    if !body_sized(b, body) {
        return Err(Refusal::WrongBody);
    }
    let p = read_places(b);
    let v = Books { raw: b, places: p };
    check_usable(&v, id, READ_PROTECTED)?;
    let f = Index(id);
    let q = pointer_at(table(&v, f), HEADER);
    if q.count == 0 {
        return Err(Refusal::PastEnd);
    }
    Ok(())
}

// Where the header lies; at 0 with no bytes on a refusal.
pub fn header_part(b: &[u8], withheld: &[u32], body: &[u8], id: u32) -> Part
    ensures { HeaderShownAt b.now withheld.now body.now id result }
{
    if check_header(b, withheld, body, id).is_err() {
        return Part { at: 0, len: 0 };
    }
    let f = Index(id);
    let p = read_places(b);
    let q = pointer_at(table(&Books { raw: b, places: p }, f), HEADER);
    Part {
        at: body_place(q.start),
        len: SECTOR_LEN * (q.count as usize),
    }
}

// The header itself.
pub fn show_header<'a, 'b>(b: &'a [u8], withheld: &'a [u32], body: &'b [u8], id: u32) -> &'b [u8]
    ensures { HeaderShown b.now withheld.now body.now id result.now }
{
    let part = header_part(b, withheld, body, id);
    let at = part.at;
    let end = at + part.len;
    &body[at..end]
}
