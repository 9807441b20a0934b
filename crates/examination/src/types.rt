// Which variable files lie in more than one zone type: one pass over the index tables, marks in a scratch array by file number.
ghost use Rattle.std.specs.Prelude.{◌≡◌, ◌+◌, ◌*◌, ◌≤◌, ◌<◌, length};
ghost use Rattle.field.specs.Says.{Says};
ghost use Rattle.tables.specs.Indexes.{table_at};
ghost use Rattle.tables.specs.Views.{books_view};
ghost use Rattle.tables.specs.Rules.R6.{R6, Shape};
ghost use Rattle.tables.specs.Rules.R8.{file_type};
ghost use Rattle.examination.specs.Surveys.{RunType, TableType, VariableFile, TypesMarked};

use tables::books::Books;
use tables::entry::decode;
use tables::extent::file_type;
use tables::index;
use tables::index::Pointer;
use tables::kind::is_variable;
use tables::kinds::{Index, Sector, Zone, zone_of};
use tables::zone::zone_entry;

// Do the sectors of a run lie in zones of type ty?
fn run_type(b: &Books<'_>, q: Pointer, ty: u32) -> bool
    requires count_bound { q.start.0 + q.count ≤ 1024 * b.now.places.zones }
    ensures { Says result (RunType (books_view b.now) q.start.0 q.count ty) }
{
    if q.count == 0 {
        return true;
    }
    let end = zone_of(Sector(q.start.0 + (q.count - 1))).0 + 1;
    (zone_of(q.start).0..end).all(|z| zone_entry(b, Zone(z)).ztype == ty)
}

// Do the sectors under the pointers of table i, whose bytes are t?
fn table_type(b: &Books<'_>, i: Index, t: &[u8], ty: u32) -> bool
    requires t_len { length t.now ≡ 128 }
    requires shape { Shape (books_view b.now) i.0 t.now }
    ensures { Says result (TableType (books_view b.now) i.0 t.now ty) }
{
    let slots = index::slots(i, t);
    let base = index::base(i, t);
    (0..slots).all(|j| run_type(b, index::pointer_at(t, base + index::POINTER * j), ty))
}

// Does table i lie in zones of that type? Nothing is asked unless f is the parent of a variable file.
fn table_fits(b: &Books<'_>, i: Index, f: Index) -> bool
    requires r6 { R6 (books_view b.now) }
    requires le_i { (1 ≤ i.0) × (i.0 ≤ b.now.places.indexes) }
    requires le_f { (1 ≤ f.0) × (f.0 ≤ b.now.places.indexes) }
    ensures { Says result (VariableFile (books_view b.now) f.0 → TableType (books_view b.now) i.0 (table_at b.now.places b.now.raw.now i.0) (file_type (books_view b.now) f.0)) }
{
    if !is_variable(decode(b, f)) {
        return true;
    }
    let ty = file_type(b, f);
    table_type(b, i, index::table(b, i), ty)
}

// Marks the file of the table after the first k if that table lies in a zone of another type.
fn add_mark(b: &Books<'_>, k: u32, m: &mut [u8])
    requires r6 { R6 (books_view b.now) }
    requires k_lt_indexes { k < b.now.places.indexes }
    requires types_marked { TypesMarked (books_view b.now) k m.old }
    ensures { TypesMarked (books_view b.now) (k + 1) m.new }
{
    let i = Index(k + 1);
    let f = index::file(i, index::table(b, i));
    if f.0 < 1 {
        return;
    }
    if f.0 > b.places.indexes {
        return;
    }
    if !table_fits(b, i, f) {
        m[f.0 as usize] = 1;
    }
}

// Marks each variable file that lies in more than one zone type.
pub fn mark_files(b: &Books<'_>, m: &mut [u8])
    requires r6 { R6 (books_view b.now) }
    requires types_marked { TypesMarked (books_view b.now) 0 m.old }
    ensures { TypesMarked (books_view b.now) b.now.places.indexes m.new }
{
    for k in 0..b.places.indexes {
        add_mark(b, k, m);
    }
}
