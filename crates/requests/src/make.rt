// What both creates share: name, kind and date judged, and the file made.
ghost use Rattle.std.specs.Prelude.{◌≡◌, [], ◌≤◌, ◌<◌};
ghost use Rattle.field.specs.Says.{Says};
ghost use Rattle.tables.specs.Books.{GoodSome};
ghost use Rattle.tables.specs.Places.{places_of};
ghost use Rattle.requests.specs.Create.{NewFile, size_bit, attribute_for, Creates};

use crate::room::check_room;
use allocation::file::create_file;
use allocation::new_parent::NewParent;
use allocation::tail::no_pointer;
use tables::books::Books;
use tables::date::date_valid;
use tables::entry::Size;
use tables::index::{DIRECTORY, VARIABLE};
use tables::kinds::Index;
use tables::name::new_name_valid;
use tables::places::read_places;
use tables::refusal::Refusal;

// Are name, kind and date allowed? The kind is a number, since NewFile speaks of each that C may hand in.
pub fn new_file_valid(name: &[u8], kind: u32, date: &[u8]) -> bool
    ensures { Says result (NewFile name.now kind date.now) }
{
    if !new_name_valid(name) {
        return false;
    }
    if kind > 2 {
        return false;
    }
    date_valid(date)
}

// The attribute of a new file.
fn attribute_for(size: Size, kind: u32) -> u32
    requires { kind ≤ 2 }
    ensures { (result ≡ attribute_for (size_bit size) kind) × (result < 128) }
{
    match size {
        Size::Fixed => DIRECTORY * kind,
        Size::Variable => VARIABLE + DIRECTORY * kind,
    }
}

// A file with blocks of these counts, where there is room for it.
pub fn make_file(
    b: &mut [u8],
    counts: [u32; 6],
    name: &[u8],
    kind: u32,
    date: &[u8],
    long: u32,
    size: Size,
) -> Result<Index, Refusal>
    requires good_some { GoodSome b.old (places_of b.old) }
    requires new_file { NewFile name.now kind date.now }
    ensures { Creates [] b.old counts (record { name = name.now; date = date.now; length = long; attribute = attribute_for (size_bit size) kind }) result b.new }
{
    let p = read_places(b);
    let l = no_pointer();
    check_room(&Books { raw: b, places: p }, l, counts)?;
    let new = NewParent {
        name,
        date,
        length: long,
        attribute: attribute_for(size, kind),
    };
    Ok(create_file(b, p, new, counts))
}
