// A file's sectors in order: the next one, and the k-th, which is sought pointer by pointer.
ghost use Rattle.std.specs.Prelude.{◌≡◌, ◌+◌, ◌<◌, length};
ghost use Rattle.tables.specs.Lawful.{LawfulSome};
ghost use Rattle.tables.specs.Rules.R8.{file_sectors};
ghost use Rattle.tables.specs.Views.{books_view, Parent};
ghost use Rattle.files.specs.Spots.{spot_start, spot_count, more_at, next_run, onward, spot_of};
ghost use Rattle.files.specs.Asked.{OnTable, OnSector};

use tables::books::Books;
use tables::index::{POINTER, Pointer, base, link, pointer_at, slots, table};
use tables::kinds::{Index, Sector};

// A sector under a pointer: the table, the pointer's number in it, and the sectors before it under the same pointer.
#[derive(Clone, Copy)]
pub struct Spot {
    pub table: Index,
    pub slot: usize,
    pub off: u32,
}

// The pointer at the spot.
fn pointer_of(b: &Books<'_>, c: Spot) -> Pointer
    requires on_table { OnTable (books_view b.now) c }
    ensures { (result.start.0 ≡ spot_start (books_view b.now) c) × (result.count ≡ spot_count (books_view b.now) c) × (result.count < 65536) }
{
    let t = table(b, c.table);
    pointer_at(t, base(c.table, t) + POINTER * c.slot)
}

// Is the next pointer of the table used?
fn more_at(b: &Books<'_>, c: Spot) -> bool
    requires on_table { OnTable (books_view b.now) c }
    ensures { result ≡ more_at (books_view b.now) c }
{
    let t = table(b, c.table);
    let j = c.slot + 1;
    if j >= slots(c.table, t) {
        return false;
    }
    let q = pointer_at(t, base(c.table, t) + POINTER * j);
    q.start.0 as u64 + q.count as u64 > 0
}

// The first sector under the next pointer.
fn next_run(b: &Books<'_>, c: Spot) -> Spot
    requires on_table { OnTable (books_view b.now) c }
    ensures { result ≡ next_run (books_view b.now) c }
{
    if more_at(b, c) {
        return Spot {
            slot: c.slot + 1,
            off: 0,
            ..c
        };
    }
    Spot {
        table: link(table(b, c.table)),
        slot: 0,
        off: 0,
    }
}

// The next sector.
pub fn onward(b: &Books<'_>, c: Spot) -> Spot
    requires on_sector { OnSector (books_view b.now) c }
    ensures { result ≡ onward (books_view b.now) c }
{
    if c.off + 1 < pointer_of(b, c).count {
        let off = c.off + 1;
        return Spot { off, ..c };
    }
    next_run(b, c)
}

// The spot's sector.
pub fn sector_of(b: &Books<'_>, c: Spot) -> Sector
    requires on_sector { OnSector (books_view b.now) c }
    ensures { result.0 ≡ spot_start (books_view b.now) c + c.off }
{
    let q = pointer_of(b, c);
    Sector(q.start.0 + c.off)
}

// The k-th sector of file f.
pub fn seek(b: &Books<'_>, f: Index, k: u32) -> Spot
    requires lawful_some { LawfulSome b.now.places b.now.raw.now }
    requires parent { Parent (books_view b.now) f.0 }
    requires k_bound { k < file_sectors (books_view b.now) f.0 }
    ensures { result ≡ spot_of (books_view b.now) f.0 k }
{
    let mut c = Spot {
        table: f,
        slot: 0,
        off: 0,
    };
    let mut rest = k;
    let mut n = pointer_of(b, c).count;
    // It goes on by as many sectors as a pointer has: there is no range for a `for`.
    while rest >= n {
        rest -= n;
        c = next_run(b, c);
        n = pointer_of(b, c).count;
    }
    Spot { off: rest, ..c }
}
