// Requests that name a file: is there an active or a deleted file of this id, and may it be used?
ghost use Rattle.std.specs.Prelude.{◌≡◌, true, [], ◌∷◌, ◌<◌};
ghost use Rattle.field.specs.Says.{Says};
ghost use Rattle.tables.specs.Refusals.{number_of};
ghost use Rattle.tables.specs.Gates.{asks, Gate};
ghost use Rattle.tables.specs.Books.{GoodSome};
ghost use Rattle.tables.specs.Indexes.{deleted_bit};
ghost use Rattle.tables.specs.Views.{books_view, Parent};
ghost use Rattle.requests.specs.Named.{state_bit, state_tests, asked_tests, Unprotected, usable_tests};

use crate::argument::check_argument;
use tables::books::Books;
use tables::entry::decode;
use tables::index::{attribute, table};
use tables::kind::is_parent;
use tables::kinds::Index;
use tables::places::read_places;
use tables::refusal::Refusal;

// The state that a request needs its file in.
#[derive(Clone, Copy)]
pub enum State {
    Active,
    Deleted,
}

impl State {
    // Weight 1 of the attribute of a file in it.
    fn bit(self) -> u32
        ensures { result ≡ state_bit self }
    {
        match self {
            State::Active => 0,
            State::Deleted => 1,
        }
    }
}

// Number 9: weight 1 is not what is needed.
fn check_mark(attribute: u32, state: State) -> Result<(), Refusal>
    ensures { Gate (asks 9 (deleted_bit attribute ≡ state_bit state) ∷ []) (number_of result) }
{
    if attribute % 2 != state.bit() {
        return Err(Refusal::WrongState);
    }
    Ok(())
}

// Numbers 8 and 9: there is a file of this id in the state that is needed.
pub fn check_state(b: &Books<'_>, id: u32, state: State) -> Result<(), Refusal>
    requires { GoodSome b.now.raw.now b.now.places }
    ensures { Gate (state_tests (state_bit state) b.now.raw.now id) (number_of result) }
{
    if id < 1 {
        return Err(Refusal::NoFile);
    }
    if id > b.places.indexes {
        return Err(Refusal::NoFile);
    }
    let e = decode(b, Index(id));
    if !is_parent(e) {
        return Err(Refusal::NoFile);
    }
    check_mark(e.attribute, state)
}

// Numbers 1 to 5, 7, 8 and 9.
pub fn check_asked(
    b: &[u8],
    withheld: &[u32],
    allowed: bool,
    id: u32,
    state: State,
) -> Result<(), Refusal>
    ensures { Gate (asked_tests (state_bit state) b.now withheld.now (allowed ≡ true) id) (number_of result) }
{
    check_argument(b, withheld, allowed)?;
    let p = read_places(b);
    check_state(&Books { raw: b, places: p }, id, state)
}

// Is file f not protected by weight w?
pub fn unprotected(b: &Books<'_>, f: Index, w: u32) -> bool
    requires good_some { GoodSome b.now.raw.now b.now.places }
    requires parent { Parent (books_view b.now) f.0 }
    requires w_nonzero { 0 < w }
    ensures { Says result (Unprotected w b.now.raw.now f.0) }
{
    attribute(table(b, f)) / w % 2 == 0
}

// Numbers 8 and 9, and 10 where the file is protected by weight w.
pub fn check_usable(b: &Books<'_>, id: u32, w: u32) -> Result<(), Refusal>
    requires good_some { GoodSome b.now.raw.now b.now.places }
    requires w_nonzero { 0 < w }
    ensures { Gate (usable_tests w b.now.raw.now id) (number_of result) }
{
    check_state(b, id, State::Active)?;
    let f = Index(id);
    if !unprotected(b, f, w) {
        return Err(Refusal::ProtectedFile);
    }
    Ok(())
}
