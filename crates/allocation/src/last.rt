// Where a file's pointers end in the books.
ghost use Rattle.std.specs.Prelude.{◌≡◌, ◌+◌, ◌≤◌, eqb, length};
ghost use Rattle.tables.specs.Views.{books_view, Parent};
ghost use Rattle.tables.specs.Rules.R5.{R5};
ghost use Rattle.allocation.specs.Last.{last_table, used_pointers, cursor_of};

use crate::growth::Cursor;
use crate::tail::Tail;
use tables::books::Books;
use tables::index::{POINTER, Pointer, base, link, pointer_at, pointer_place, slots, table};
use tables::kinds::Index;

// The last table of file f.
pub fn last_table(b: &Books<'_>, f: Index) -> Index
    requires r5 { R5 (books_view b.now) }
    requires parent { Parent (books_view b.now) f.0 }
    ensures { (result.0 ≡ last_table (books_view b.now) f.0) × (1 ≤ result.0) × (result.0 ≤ b.now.places.indexes) }
{
    let mut i = f;
    for _ in 0..b.places.indexes {
        let next = link(table(b, i));
        if next == Index(0) {
            return i;
        }
        i = next;
    }
    i
}

// Does the pointer name no sector?
fn unused(q: Pointer) -> bool
    ensures { result ≡ eqb (q.start.0 + q.count) 0 }
{
    q.start.0 as u64 + q.count as u64 == 0
}

// How many pointers of table i are used.
fn used_pointers(i: Index, t: &[u8]) -> usize
    requires { length t.now ≡ 128 }
    ensures { (result ≡ used_pointers i.0 t.now) × (result ≤ 17) }
{
    let n = slots(i, t);
    let at = base(i, t);
    (0..n)
        .find(|j| unused(pointer_at(t, at + POINTER * *j)))
        .unwrap_or(n)
}

// Where file f goes on.
pub fn cursor_of(b: &Books<'_>, f: Index) -> Cursor
    requires r5 { R5 (books_view b.now) }
    requires parent { Parent (books_view b.now) f.0 }
    ensures { result ≡ cursor_of b.now.places b.now.raw.now f.0 }
{
    let i = last_table(b, f);
    let t = table(b, i);
    let capacity = slots(i, t);
    let slot = used_pointers(i, t);
    Cursor {
        tail: Tail {
            last: pointer_at(t, pointer_place(capacity, slot)),
            slot,
            capacity,
            tables: 0,
        },
        table: i,
    }
}
