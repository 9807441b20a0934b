// List: the first 64 bytes of the active files' parents, from an id up.
ghost use Rattle.std.specs.Prelude.{◌≡◌, cond, ◌&&◌, ◌+◌, ◌*◌, ◌/◌, ◌≤◌, ◌<◌, ltb, length, take};
ghost use Rattle.field.specs.Parts.{over};
ghost use Rattle.tables.specs.Views.{books_view};
ghost use Rattle.requests.specs.Active.{passing};
ghost use Rattle.requests.specs.Listing.{is_listed, fronts, Listed};

use crate::active::is_active;
use crate::argument::check_argument;
use field::parts::copy;
use tables::books::Books;
use tables::index::table;
use tables::kinds::Index;
use tables::places::read_places;
use tables::refusal::Refusal;

// The bytes of an entry.
const ENTRY: usize = 64;

// Is table i an active parent from the given id up?
fn is_listed(b: &Books<'_>, from: u32, i: Index) -> bool
    requires le_i { (1 ≤ i.0) × (i.0 ≤ b.now.places.indexes) }
    ensures { result ≡ is_listed (books_view b.now) from i.0 }
{
    if i.0 < from {
        return false;
    }
    is_active(b, i)
}

// The first 64 bytes of table i as the n-th entry.
fn put_front(b: &Books<'_>, i: Index, entries: &mut [u8], n: usize)
    requires le_i { (1 ≤ i.0) × (i.0 ≤ b.now.places.indexes) }
    requires n_in_bounds { n < length entries.old / 64 }
    ensures { entries.new ≡ over entries.old (64 * n) (take 64 ((books_view b.now).table i.0)) }
{
    let t = table(b, i);
    copy(entries, ENTRY * n, &t[..ENTRY]);
}

// Table i as the n-th entry where it is listed and fits whole; how many there are then.
fn add_front(b: &Books<'_>, from: u32, i: Index, entries: &mut [u8], n: usize) -> usize
    requires le_i { (1 ≤ i.0) × (i.0 ≤ b.now.places.indexes) }
    ensures { (result ≡ cond (ltb n (length entries.old / 64) && is_listed (books_view b.now) from i.0) (n + 1) n) × (entries.new ≡ cond (ltb n (length entries.old / 64) && is_listed (books_view b.now) from i.0) (over entries.old (64 * n) (take 64 ((books_view b.now).table i.0))) entries.old) }
{
    if n >= entries.len() / ENTRY {
        return n;
    }
    if !is_listed(b, from, i) {
        return n;
    }
    put_front(b, i, entries, n);
    n + 1
}

// Fills in as many as fit whole, and counts them.
fn list_files(b: &Books<'_>, from: u32, entries: &mut [u8]) -> u32
    ensures { (result ≡ length (take (length entries.old / 64) (passing (is_listed (books_view b.now) from) b.now.places.indexes))) × (entries.new ≡ over entries.old 0 (fronts (books_view b.now) (take (length entries.old / 64) (passing (is_listed (books_view b.now) from) b.now.places.indexes)))) }
{
    let mut n: usize = 0;
    for i in 1..b.places.indexes + 1 {
        n = add_front(b, from, Index(i), entries, n);
    }
    n as u32
}

pub fn list(b: &[u8], withheld: &[u32], from: u32, entries: &mut [u8]) -> Result<u32, Refusal>
    ensures { Listed b.now withheld.now from entries.old result entries.new }
{
    check_argument(b, withheld, from >= 1)?;
    let p = read_places(b);
    Ok(list_files(&Books { raw: b, places: p }, from, entries))
}
