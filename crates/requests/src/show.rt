// Show: a file's k-th sector as it lies in the caller's body.
ghost use Rattle.tables.specs.Refusals.{number_of};
ghost use Rattle.tables.specs.Gates.{Gate};
ghost use Rattle.requests.specs.Show.{show_tests, ShownAt, Shown};

use crate::body::body_sized;
use crate::judged::check_use;
use crate::named::check_usable;
use crate::sector::kth_sector;
use allocation::size::file_sectors;
use files::sectors::body_place;
use tables::books::Books;
use tables::index::READ_PROTECTED;
use tables::kinds::Index;
use tables::places::read_places;
use tables::refusal::Refusal;
use tables::sizes::SECTOR_LEN;

// A part of the body: where it begins, and how many bytes it has. No slice, since C gets it by value.
#[repr(C)]
#[derive(Clone, Copy)]
pub struct Part {
    pub at: usize,
    pub len: usize,
}

// Show's number.
pub fn check_show(b: &[u8], withheld: &[u32], body: &[u8], id: u32, k: u32) -> Result<(), Refusal>
    ensures { Gate (show_tests b.now withheld.now body.now id k) (number_of result) }
{
    check_use(b, withheld)?;
    if !body_sized(b, body) {
        return Err(Refusal::WrongBody);
    }
    let p = read_places(b);
    let v = Books { raw: b, places: p };
    check_usable(&v, id, READ_PROTECTED)?;
    let f = Index(id);
    if k as u64 >= file_sectors(&v, f) {
        return Err(Refusal::PastEnd);
    }
    Ok(())
}

// Where the part lies; at 0 with no bytes on a refusal.
pub fn show_part(b: &[u8], withheld: &[u32], body: &[u8], id: u32, k: u32) -> Part
    ensures { ShownAt b.now withheld.now body.now id k result }
{
    if check_show(b, withheld, body, id, k).is_err() {
        return Part { at: 0, len: 0 };
    }
    let f = Index(id);
    let p = read_places(b);
    Part {
        at: body_place(kth_sector(&Books { raw: b, places: p }, f, k)),
        len: SECTOR_LEN,
    }
}

// The part itself.
pub fn show<'a, 'b>(b: &'a [u8], withheld: &'a [u32], body: &'b [u8], id: u32, k: u32) -> &'b [u8]
    ensures { Shown b.now withheld.now body.now id k result.now }
{
    let part = show_part(b, withheld, body, id, k);
    let at = part.at;
    let end = at + part.len;
    &body[at..end]
}
