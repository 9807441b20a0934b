// A file made longer: what it lacks, whether there is room for that, and the blocks added.
ghost use Rattle.std.specs.Prelude.{◌≡◌, length};
ghost use Rattle.tables.specs.Refusals.{number_of};
ghost use Rattle.tables.specs.Gates.{Gate};
ghost use Rattle.tables.specs.Books.{GoodSome};
ghost use Rattle.tables.specs.Places.{places_of};
ghost use Rattle.tables.specs.Views.{books_view, view_of, Parent};
ghost use Rattle.requests.specs.Grow.{grow_counts, lack_tests, grown_to};

use crate::room::check_room;
use allocation::file::{grow_file, only_counts};
use allocation::last::cursor_of;
use allocation::size::blocks_for;
use tables::books::Books;
use tables::extent::file_type;
use tables::index::{byte_length, table};
use tables::kinds::Index;
use tables::places::read_places;
use tables::refusal::Refusal;

// The blocks that file f lacks, by type.
fn grow_counts(b: &Books<'_>, f: Index, long: u32) -> [u32; 6]
    requires good_some { GoodSome b.now.raw.now b.now.places }
    requires parent { Parent (books_view b.now) f.0 }
    ensures { result ≡ grow_counts b.now.raw.now f.0 long }
{
    only_counts(file_type(b, f), blocks_for(b, f, long))
}

// Numbers 12 and 13, where the file becomes longer.
pub fn check_lack(b: &Books<'_>, f: Index, long: u32) -> Result<(), Refusal>
    requires good_some { GoodSome b.now.raw.now b.now.places }
    requires parent { Parent (books_view b.now) f.0 }
    ensures { Gate (lack_tests b.now.raw.now f.0 long) (number_of result) }
{
    if byte_length(table(b, f)) >= long {
        return Ok(());
    }
    let c = cursor_of(b, f);
    check_room(b, c.tail, grow_counts(b, f, long))
}

// Adds the blocks and sets the length, if the file becomes longer.
pub fn lengthen(b: &mut [u8], f: Index, long: u32, date: &[u8])
    requires good_some { GoodSome b.old (places_of b.old) }
    requires parent { Parent (view_of (places_of b.old) b.old) f.0 }
    requires gate { Gate (lack_tests b.old f.0 long) 0 }
    requires date_len { length date.now ≡ 6 }
    ensures { b.new ≡ grown_to b.old f.0 long date.now }
{
    let p = read_places(b);
    if byte_length(table(&Books { raw: b, places: p }, f)) >= long {
        return;
    }
    let counts = grow_counts(&Books { raw: b, places: p }, f, long);
    grow_file(b, p, f, counts, long, date);
}
