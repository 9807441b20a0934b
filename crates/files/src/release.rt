// A file given back: its sectors, its header's and its tables are free.
ghost use Rattle.std.specs.Prelude.{◌≡◌, ◌+◌, ◌≤◌, ◌<◌, length};
ghost use Rattle.tables.specs.Indexes.{table_at, attribute_of, deleted_bit, slots_of};
ghost use Rattle.tables.specs.Lawful.{LawfulSome};
ghost use Rattle.tables.specs.Places.{Layout};
ghost use Rattle.tables.specs.Sector1.{deleted_of, free_of};
ghost use Rattle.tables.specs.Views.{view_of, Parent};
ghost use Rattle.files.specs.Release.{chain_of, file_tables, clear_runs, clear_header, free_table, free_tables, put_freed, freed_file, released};
ghost use Rattle.files.specs.Asked.{RunsWithin};

use crate::zones::recount_zones;
use allocation::last::last_table;
use tables::books::Books;
use tables::index::{
    HEADER, LINK, POINTER, base, erase, first_word, link, pointer_at, put_link, slots, table,
};
use tables::kinds::Index;
use tables::places::Places;
use tables::sector::put_sectors;
use tables::sector1;

// Frees the sectors under the pointers of table i.
fn clear_runs(b: &mut [u8], p: Places, i: Index)
    requires layout { Layout p (length b.old) }
    requires le_i { (1 ≤ i.0) × (i.0 ≤ p.indexes) }
    requires runs_within { RunsWithin p i.0 (table_at p b.old i.0) }
    ensures { b.new ≡ clear_runs p b.old i.0 (table_at p b.old i.0) (slots_of i.0 (table_at p b.old i.0)) }
{
    let n = slots(i, table(&Books { raw: b, places: p }, i));
    let at = base(i, table(&Books { raw: b, places: p }, i));
    for j in 0..n {
        let q = pointer_at(table(&Books { raw: b, places: p }, i), at + POINTER * j);
        put_sectors(b, p, q.start, q.count, 0);
    }
}

// Frees the sectors under the header pointer of table i, if it is a parent.
fn clear_header(b: &mut [u8], p: Places, i: Index)
    requires layout { Layout p (length b.old) }
    requires le_i { (1 ≤ i.0) × (i.0 ≤ p.indexes) }
    requires runs_within { RunsWithin p i.0 (table_at p b.old i.0) }
    ensures { b.new ≡ clear_header p b.old i.0 (table_at p b.old i.0) }
{
    if first_word(table(&Books { raw: b, places: p }, i)) != i.0 {
        return;
    }
    let q = pointer_at(table(&Books { raw: b, places: p }, i), HEADER);
    put_sectors(b, p, q.start, q.count, 0);
}

// Frees table i and its sectors; its link stays.
fn free_table(b: &mut [u8], p: Places, i: Index)
    requires layout { Layout p (length b.old) }
    requires le_i { (1 ≤ i.0) × (i.0 ≤ p.indexes) }
    requires runs_within { RunsWithin p i.0 (table_at p b.old i.0) }
    ensures { b.new ≡ free_table p b.old i.0 }
{
    clear_runs(b, p, i);
    clear_header(b, p, i);
    erase(b, p, i, LINK);
}

// Frees the tables of file f, and counts them.
fn free_tables(b: &mut [u8], p: Places, f: Index) -> u32
    requires layout { Layout p (length b.old) }
    requires lawful_some { LawfulSome p b.old }
    requires parent { Parent (view_of p b.old) f.0 }
    ensures { (result ≡ file_tables (view_of p b.old) f.0) × (b.new ≡ free_tables p b.old (chain_of (view_of p b.old) f.0)) × (result ≤ 4096) }
{
    let mut i = f;
    let mut n: u32 = 0;
    // It follows the links to their end: there is no range for a `for`.
    while i.0 != 0 {
        free_table(b, p, i);
        i = link(table(&Books { raw: b, places: p }, i));
        n += 1;
    }
    n
}

// Sector 1, for n free tables more, and a deleted file fewer.
fn put_freed(b: &mut [u8], f: Index, n: u32, date: &[u8])
    requires in_bounds { 2048 ≤ length b.old }
    requires bound { (1 ≤ deleted_of b.old) × (free_of b.old + n < 4294967296) }
    requires date_len { length date.now ≡ 6 }
    ensures { b.new ≡ put_freed b.old f.0 n date.now }
{
    let deleted = sector1::deleted_files(b) - 1;
    let free = sector1::free_indexes(b) + n;
    sector1::put_deleted(b, deleted);
    sector1::put_free(b, free);
    sector1::put_first_free(b, f);
    sector1::put_latest(b, date);
}

// The file's tables in order before the old free chain.
fn free_file(b: &mut [u8], p: Places, f: Index, date: &[u8])
    requires layout { Layout p (length b.old) }
    requires lawful_some { LawfulSome p b.old }
    requires parent { Parent (view_of p b.old) f.0 }
    requires f_value { deleted_bit (attribute_of (table_at p b.old f.0)) ≡ 1 }
    requires date_len { length date.now ≡ 6 }
    ensures { b.new ≡ freed_file p b.old f.0 date.now }
{
    let first = sector1::first_free(b);
    let last = last_table(&Books { raw: b, places: p }, f);
    let n = free_tables(b, p, f);
    put_link(b, p, last, first);
    put_freed(b, f, n, date);
}

// The books without file f, which is deleted.
pub fn release_file(b: &mut [u8], p: Places, f: Index, date: &[u8])
    requires layout { Layout p (length b.old) }
    requires lawful_some { LawfulSome p b.old }
    requires parent { Parent (view_of p b.old) f.0 }
    requires f_value { deleted_bit (attribute_of (table_at p b.old f.0)) ≡ 1 }
    requires date_len { length date.now ≡ 6 }
    ensures { b.new ≡ released p b.old f.0 date.now }
{
    free_file(b, p, f, date);
    recount_zones(b, p);
}
