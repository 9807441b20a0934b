// Grow: a variable file gets the blocks that it lacks for a longer length.
ghost use Rattle.field.specs.Says.{Says};
ghost use Rattle.tables.specs.Refusals.{number_of};
ghost use Rattle.tables.specs.Gates.{Gate};
ghost use Rattle.tables.specs.Books.{GoodSome};
ghost use Rattle.tables.specs.Views.{books_view, Parent};
ghost use Rattle.requests.specs.Grow.{GrowAllowed, kind_tests, file_tests, grow_tests, Grew};

use crate::argument::check_argument;
use crate::longer::{check_lack, lengthen};
use crate::named::{State, check_state, unprotected};
use crate::variable::variable_size;
use tables::books::Books;
use tables::date::date_valid;
use tables::index::WRITE_PROTECTED;
use tables::kinds::Index;
use tables::places::read_places;
use tables::refusal::Refusal;

fn grow_allowed(long: Option<u32>, date: &[u8]) -> bool
    ensures { Says result (GrowAllowed long date.now) }
{
    let Some(n) = long else {
        return false;
    };
    if n > 2147483647 {
        return false;
    }
    date_valid(date)
}

// Numbers 10 and 11.
fn check_kind(b: &Books<'_>, f: Index) -> Result<(), Refusal>
    requires good_some { GoodSome b.now.raw.now b.now.places }
    requires parent { Parent (books_view b.now) f.0 }
    ensures { Gate (kind_tests b.now.raw.now f.0) (number_of result) }
{
    if !unprotected(b, f, WRITE_PROTECTED) {
        return Err(Refusal::ProtectedFile);
    }
    if !variable_size(b, f) {
        return Err(Refusal::FixedFile);
    }
    Ok(())
}

// Numbers 8 to 13.
fn check_file(b: &Books<'_>, id: u32, long: u32) -> Result<(), Refusal>
    requires { GoodSome b.now.raw.now b.now.places }
    ensures { Gate (file_tests b.now.raw.now id long) (number_of result) }
{
    check_state(b, id, State::Active)?;
    let f = Index(id);
    check_kind(b, f)?;
    check_lack(b, f, long)
}

fn check_grow(
    b: &[u8],
    withheld: &[u32],
    id: u32,
    long: Option<u32>,
    date: &[u8],
) -> Result<(), Refusal>
    ensures { Gate (grow_tests b.now withheld.now id long date.now) (number_of result) }
{
    check_argument(b, withheld, grow_allowed(long, date))?;
    let p = read_places(b);
    check_file(&Books { raw: b, places: p }, id, long.unwrap_or(0))
}

pub fn grow(
    b: &mut [u8],
    withheld: &[u32],
    id: u32,
    long: Option<u32>,
    date: &[u8],
) -> Result<(), Refusal>
    ensures { Grew b.old withheld.now id long date.now (number_of result) b.new }
{
    check_grow(b, withheld, id, long, date)?;
    let f = Index(id);
    lengthen(b, f, long.unwrap_or(0), date);
    Ok(())
}
