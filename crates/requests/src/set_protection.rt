// Set protection: weights 4 and 8 of an active file's attribute.
ghost use Rattle.field.specs.Says.{Says};
ghost use Rattle.tables.specs.Refusals.{number_of};
ghost use Rattle.tables.specs.Gates.{Gate};
ghost use Rattle.requests.specs.State.{ProtectAllowed, protect_tests, Protected};

use crate::named::{State, check_asked};
use crate::state::protect;
use tables::date::date_valid;
use tables::kinds::Index;
use tables::places::read_places;
use tables::refusal::Refusal;

// Is the protection 0, 4, 8 or 12, and the date valid?
fn protect_allowed(w: u32, date: &[u8]) -> bool
    ensures { Says result (ProtectAllowed w date.now) }
{
    if w % 4 != 0 {
        return false;
    }
    if w > 12 {
        return false;
    }
    date_valid(date)
}

fn check_protect(b: &[u8], withheld: &[u32], id: u32, w: u32, date: &[u8]) -> Result<(), Refusal>
    ensures { Gate (protect_tests b.now withheld.now id w date.now) (number_of result) }
{
    check_asked(b, withheld, protect_allowed(w, date), id, State::Active)
}

pub fn set_protection(
    b: &mut [u8],
    withheld: &[u32],
    id: u32,
    w: u32,
    date: &[u8],
) -> Result<(), Refusal>
    ensures { Protected b.old withheld.now id w date.now (number_of result) b.new }
{
    check_protect(b, withheld, id, w, date)?;
    let p = read_places(b);
    let f = Index(id);
    protect(b, p, f, w, date);
    Ok(())
}
