// Locate: the volume sector of a file's k-th sector.
ghost use Rattle.tables.specs.Refusals.{number_of};
ghost use Rattle.tables.specs.Gates.{Gate};
ghost use Rattle.requests.specs.Locate.{locate_tests, Locates};

use crate::judged::check_use;
use crate::named::{State, check_state};
use crate::sector::kth_sector;
use allocation::size::file_sectors;
use tables::books::Books;
use tables::kinds::{Index, Sector};
use tables::places::read_places;
use tables::refusal::Refusal;

fn check_locate(b: &[u8], withheld: &[u32], id: u32, k: u32) -> Result<(), Refusal>
    ensures { Gate (locate_tests b.now withheld.now id k) (number_of result) }
{
    check_use(b, withheld)?;
    let p = read_places(b);
    let v = Books { raw: b, places: p };
    check_state(&v, id, State::Active)?;
    let f = Index(id);
    if k as u64 >= file_sectors(&v, f) {
        return Err(Refusal::PastEnd);
    }
    Ok(())
}

pub fn locate(b: &[u8], withheld: &[u32], id: u32, k: u32) -> Result<Sector, Refusal>
    ensures { Locates b.now withheld.now id k result }
{
    check_locate(b, withheld, id, k)?;
    let f = Index(id);
    let p = read_places(b);
    Ok(kth_sector(&Books { raw: b, places: p }, f, k))
}
