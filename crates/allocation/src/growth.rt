// A file gets blocks: each is chosen, taken, and pointed at.
ghost use Rattle.std.specs.Prelude.{◌≡◌, List, ℕ, ◌≤◌, length, replicate};
ghost use Rattle.tables.specs.declared.places.Places.{Places};
ghost use Rattle.allocation.specs.declared.choice.Found.{Found};
ghost use Rattle.tables.specs.Places.{Layout};
ghost use Rattle.allocation.specs.Choice.{in_order, in_turn};
ghost use Rattle.allocation.specs.Growth.{Growth, point_here, point_further, pointed, laid, add_block};
ghost use Rattle.allocation.specs.Plans.{planned, plan_block};
ghost use Rattle.allocation.specs.NextPointer.{tail_of};
ghost use Rattle.allocation.specs.Ready.{Head, HeadFor, InTable, Laying, Planning, Ready};
ghost use Rattle.allocation.specs.Stock.{Plannable};
ghost use Rattle.allocation.specs.Ways.{WayLaws};

use crate::choice::{Found, block_start, choose_block, put_block};
use crate::table::put_child;
use crate::tail::{Pushed, Tail, push_block, tail_of};
use tables::blocks::block_sectors;
use tables::books::Books;
use tables::index::{pointer_place, put_pointer};
use tables::kinds::{Index, Zone};
use tables::places::Places;

// Where the file's pointers end, and its last table.
#[derive(Clone, Copy)]
pub struct Cursor {
    pub tail: Tail,
    pub table: Index,
}

// The last pointer in the present table.
fn point_here(b: &mut [u8], p: Places, c: Cursor, l: Tail) -> Cursor
    requires layout { Layout p (length b.old) }
    requires in_table { InTable l }
    requires le_table { (1 ≤ c.table.0) × (c.table.0 ≤ p.indexes) }
    ensures { record { books = b.new; cursor = result } ≡ point_here p b.old c l }
{
    let at = pointer_place(l.capacity, l.slot);
    put_pointer(b, p, c.table, at, l.last);
    Cursor { tail: l, ..c }
}

// The last pointer in a further child of file f.
fn point_further(b: &mut [u8], p: Places, f: Index, c: Cursor, l: Tail) -> Cursor
    requires layout { Layout p (length b.old) }
    requires head { Head p b.old }
    requires in_table { InTable l }
    requires le_table { (1 ≤ c.table.0) × (c.table.0 ≤ p.indexes) }
    ensures { record { books = b.new; cursor = result } ≡ point_further p f.0 b.old c l }
{
    let i = put_child(b, p, f, c.table);
    let at = pointer_place(l.capacity, l.slot);
    put_pointer(b, p, i, at, l.last);
    Cursor { tail: l, table: i }
}

// A block after the tail of file f, pointed at.
fn point(b: &mut [u8], p: Places, f: Index, c: Cursor, r: Pushed) -> Cursor
    requires layout { Layout p (length b.old) }
    requires head_for { HeadFor p b.old r }
    requires in_table { InTable (tail_of r) }
    requires le_table { (1 ≤ c.table.0) × (c.table.0 ≤ p.indexes) }
    ensures { record { books = b.new; cursor = result } ≡ pointed p f.0 b.old c r }
{
    match r {
        Pushed::Joined(l) | Pushed::Beside(l) => point_here(b, p, c, l),
        Pushed::Further(l) => point_further(b, p, f, c, l),
    }
}

// A way to add blocks to a file, one at a time: what is done with the block chosen. What its parts have to do with each other (WayLaws) is shown
// where a way is named, by the laws of the proofs.
trait Way {
    // What blocks of these types ask that are yet to be added, what the block chosen asks, what becomes of it, and the whole step.
    ghost ready: { Places → ℕ → Growth → List ℕ → Type 0 };

    ghost able: { Places → ℕ → Found → Growth → Type 0 };

    ghost added: { Places → ℕ → ℕ → Found → Growth → Growth };

    ghost step: { Places → ℕ → ℕ → Growth → Growth };

    // Block k of type t for file f.
    fn add(b: &mut [u8], p: Places, f: Index, t: u32, k: Found, c: Cursor) -> Cursor
        requires { able p t k (record { books = b.old; cursor = c }) }
        ensures { record { books = b.new; cursor = result } ≡ added p f.0 t k (record { books = b.old; cursor = c }) };
}

// It is taken and pointed at.
struct Lay;

impl Way for Lay {
    ghost ready = { Ready };

    ghost able = { Laying };

    ghost added = { laid };

    ghost step = { add_block };

    fn add(b: &mut [u8], p: Places, f: Index, t: u32, k: Found, c: Cursor) -> Cursor {
        put_block(b, p, t, k);
        let r = push_block(c.tail, block_start(t, k), block_sectors(t));
        point(b, p, f, c, r)
    }
}

// It is taken, and no index table is written.
struct Plan;

impl Way for Plan {
    ghost ready = { λ p f g ts. Plannable p g.books g.cursor.tail ts };

    ghost able = { Planning };

    ghost added = { λ p f t k g. planned p t k g };

    ghost step = { λ p f t g. plan_block p t g };

    fn add(b: &mut [u8], p: Places, _f: Index, t: u32, k: Found, c: Cursor) -> Cursor {
        put_block(b, p, t, k);
        let tail = tail_of(push_block(c.tail, block_start(t, k), block_sectors(t)));
        Cursor { tail, ..c }
    }
}

// n blocks of type t.
fn add_some<W: Way>(b: &mut [u8], p: Places, f: Index, t: u32, n: u32, c: Cursor) -> Cursor
    requires laws { WayLaws W.ready W.able W.added W.step }
    requires ready { W.ready p f.0 (record { books = b.old; cursor = c }) (replicate n t) }
    ensures { record { books = b.new; cursor = result } ≡ in_turn (W.step p f.0) (replicate n t) (record { books = b.old; cursor = c }) }
{
    let mut cursor = c;
    let mut from = Found {
        zone: Zone(2),
        number: 0,
        free: 0,
    };
    for _ in 0..n {
        let choice = choose_block(&Books { raw: b, places: p }, cursor.tail, t, from);
        cursor = W::add(b, p, f, t, choice.block, cursor);
        from = choice.from;
    }
    cursor
}

// The blocks of all types, H first.
fn add_all<W: Way>(b: &mut [u8], p: Places, f: Index, counts: [u32; 6], c: Cursor) -> Cursor
    requires laws { WayLaws W.ready W.able W.added W.step }
    requires ready { W.ready p f.0 (record { books = b.old; cursor = c }) (in_order counts) }
    ensures { record { books = b.new; cursor = result } ≡ in_turn (W.step p f.0) (in_order counts) (record { books = b.old; cursor = c }) }
{
    let mut cursor = c;
    for (i, n) in counts.iter().enumerate() {
        cursor = add_some::<W>(b, p, f, 8 - i as u32, *n, cursor);
    }
    cursor
}

// They are laid for file f.
pub fn lay_all(b: &mut [u8], p: Places, f: Index, counts: [u32; 6], c: Cursor) -> Cursor
    requires { Ready p f.0 (record { books = b.old; cursor = c }) (in_order counts) }
    ensures { record { books = b.new; cursor = result } ≡ in_turn (add_block p f.0) (in_order counts) (record { books = b.old; cursor = c }) }
{
    add_all::<Lay>(b, p, f, counts, c)
}

// They are only planned.
pub fn plan_all(b: &mut [u8], p: Places, counts: [u32; 6], c: Cursor) -> Cursor
    requires { Plannable p b.old c.tail (in_order counts) }
    ensures { record { books = b.new; cursor = result } ≡ in_turn (plan_block p) (in_order counts) (record { books = b.old; cursor = c }) }
{
    add_all::<Plan>(b, p, c.table, counts, c)
}
