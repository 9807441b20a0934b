// Requests that take the body: has it its length?
ghost use Rattle.std.specs.Prelude.{◌≡◌, true};
ghost use Rattle.field.specs.Says.{Says};
ghost use Rattle.tables.specs.Refusals.{number_of};
ghost use Rattle.tables.specs.Books.{GoodSome};
ghost use Rattle.tables.specs.Gates.{Gate};
ghost use Rattle.tables.specs.Places.{places_of};
ghost use Rattle.requests.specs.Body.{BodySized, lent_tests};

use crate::argument::check_argument;
use tables::refusal::Refusal;
use tables::sector0::zones;
use tables::sizes::{SECTOR_LEN, ZONE};

// The bytes of a zone.
const ZONE_BYTES: usize = ZONE as usize * SECTOR_LEN;

// Where it has not, a request that takes it gives 15.
pub fn body_sized(b: &[u8], body: &[u8]) -> bool
    requires { GoodSome b.now (places_of b.now) }
    ensures { Says result (BodySized b.now body.now) }
{
    body.len() == ZONE_BYTES * (zones(b) as usize - 2)
}

// Numbers 1 to 5, 7, and 15.
pub fn check_lent(b: &[u8], withheld: &[u32], body: &[u8], allowed: bool) -> Result<(), Refusal>
    ensures { Gate (lent_tests b.now withheld.now body.now (allowed ≡ true)) (number_of result) }
{
    check_argument(b, withheld, allowed)?;
    if !body_sized(b, body) {
        return Err(Refusal::WrongBody);
    }
    Ok(())
}
