// Recover: a temporarily deleted file is active again, and its header, where it has one, begins with its id.
ghost use Rattle.tables.specs.Refusals.{number_of};
ghost use Rattle.requests.specs.State.{Recovered};

use crate::deleted::check_recover;
use crate::state::restore;
use files::header_bytes::mark_header;
use tables::books::Books;
use tables::kinds::Index;
use tables::places::read_places;
use tables::refusal::Refusal;

pub fn recover(
    b: &mut [u8],
    withheld: &[u32],
    body: &mut [u8],
    id: u32,
    date: &[u8],
) -> Result<(), Refusal>
    ensures { Recovered b.old withheld.now body.old id date.now (number_of result) b.new body.new }
{
    check_recover(b, withheld, body, id, date)?;
    let p = read_places(b);
    let f = Index(id);
    mark_header(&Books { raw: b, places: p }, f, id, body);
    restore(b, p, f, date);
    Ok(())
}
