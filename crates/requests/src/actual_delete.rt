// Actual delete: a deleted file's blocks and tables are free, and its header, where it has one, begins with 0.
ghost use Rattle.tables.specs.Refusals.{number_of};
ghost use Rattle.requests.specs.Delete.{Deleted};

use crate::deleted::check_recover;
use files::header_bytes::mark_header;
use files::release::release_file;
use tables::books::Books;
use tables::kinds::Index;
use tables::places::read_places;
use tables::refusal::Refusal;

pub fn actual_delete(
    b: &mut [u8],
    withheld: &[u32],
    body: &mut [u8],
    id: u32,
    date: &[u8],
) -> Result<(), Refusal>
    ensures { Deleted b.old withheld.now body.old id date.now (number_of result) b.new body.new }
{
    check_recover(b, withheld, body, id, date)?;
    let p = read_places(b);
    let f = Index(id);
    mark_header(&Books { raw: b, places: p }, f, 0, body);
    release_file(b, p, f, date);
    Ok(())
}
