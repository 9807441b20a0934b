// What read and write share: position, wanted length and buffer judged, and where a file ends.
ghost use Rattle.std.specs.Prelude.{◌≡◌, ◌≤◌, Some};
ghost use Rattle.field.specs.Says.{Says};
ghost use Rattle.tables.specs.Books.{GoodSome};
ghost use Rattle.tables.specs.Views.{books_view, Parent};
ghost use Rattle.requests.specs.Moving.{whole_sectors, end_of, MoveAllowed};

use tables::books::Books;
use tables::index::{byte_length, table};
use tables::kinds::Index;
use tables::sizes::{ROUND_UP, SECTOR};

// Rounded down to whole sectors.
pub fn whole_sectors(n: u32) -> u32
    ensures { (result ≡ whole_sectors n) × (result ≤ n) }
{
    n / SECTOR * SECTOR
}

// Are position and wanted length such that a buffer of `room` bytes is enough?
fn sizes_allowed(at: u32, long: u32, room: usize) -> bool
    ensures { Says result (MoveAllowed (Some at) (Some long) room) }
{
    if at > 2147483647 {
        return false;
    }
    if at % SECTOR != 0 {
        return false;
    }
    if long > 2147483647 {
        return false;
    }
    whole_sectors(long) as usize <= room
}

pub fn move_allowed(position: Option<u32>, long: Option<u32>, room: usize) -> bool
    ensures { Says result (MoveAllowed position long room) }
{
    match (position, long) {
        (Some(at), Some(n)) => sizes_allowed(at, n, room),
        _ => false,
    }
}

// The end of file f: its byte length rounded up.
pub fn end_of(b: &Books<'_>, f: Index) -> u32
    requires good_some { GoodSome b.now.raw.now b.now.places }
    requires parent { Parent (books_view b.now) f.0 }
    ensures { (result ≡ end_of b.now.raw.now f.0) × (result ≤ 2147483648) }
{
    SECTOR * ((byte_length(table(b, f)) + ROUND_UP) / SECTOR)
}
