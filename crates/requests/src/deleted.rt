// What recover and actual delete ask: a deleted file.
ghost use Rattle.tables.specs.Refusals.{number_of};
ghost use Rattle.tables.specs.Gates.{Gate};
ghost use Rattle.requests.specs.State.{recover_tests};

use crate::body::check_lent;
use crate::named::{State, check_state};
use tables::books::Books;
use tables::date::date_valid;
use tables::places::read_places;
use tables::refusal::Refusal;

// Numbers 1 to 5, 7, 15, then 8 and 9.
pub fn check_recover(
    b: &[u8],
    withheld: &[u32],
    body: &[u8],
    id: u32,
    date: &[u8],
) -> Result<(), Refusal>
    ensures { Gate (recover_tests b.now withheld.now body.now id date.now) (number_of result) }
{
    check_lent(b, withheld, body, date_valid(date))?;
    let p = read_places(b);
    check_state(&Books { raw: b, places: p }, id, State::Deleted)
}
