// New index tables off the free chain's head, and the change of a file that grows.
ghost use Rattle.std.specs.Prelude.{◌≡◌, ◌+◌, ◌≤◌, ◌<◌, length};
ghost use Rattle.tables.specs.Places.{Layout};
ghost use Rattle.tables.specs.Sector1.{first_free_of, active_of, system_of, directory_of};
ghost use Rattle.allocation.specs.NewTables.{new_of, take_table, put_child, put_named, put_dates, put_size, put_new_parent, count_file};
ghost use Rattle.allocation.specs.Ready.{Head};
ghost use Rattle.allocation.specs.MadeFiles.{put_change};

use crate::new_parent::NewParent;
use tables::books::Books;
use tables::kinds::Index;
use tables::places::Places;
use tables::sizes::TABLE_LEN;
use tables::{index, sector1};

// Takes the first free index table; its bytes are then zero.
fn take_table(b: &mut [u8], p: Places) -> Index
    requires layout { Layout p (length b.old) }
    requires head { Head p b.old }
    ensures { (result.0 ≡ first_free_of b.old) × (b.new ≡ take_table p b.old) }
{
    let i = sector1::first_free(b);
    let next = index::link(index::table(&Books { raw: b, places: p }, i));
    let left = sector1::free_indexes(b) - 1;
    sector1::put_first_free(b, next);
    sector1::put_free(b, left);
    index::erase(b, p, i, TABLE_LEN);
    i
}

// Makes it a child of file f, after the table `last`.
pub fn put_child(b: &mut [u8], p: Places, f: Index, last: Index) -> Index
    requires layout { Layout p (length b.old) }
    requires head { Head p b.old }
    requires le_last { (1 ≤ last.0) × (last.0 ≤ p.indexes) }
    ensures { (result.0 ≡ first_free_of b.old) × (b.new ≡ put_child p b.old f.0 last.0) }
{
    let i = take_table(b, p);
    index::put_word(b, p, i, index::minus(i));
    index::put_parent(b, p, i, f);
    index::put_link(b, p, last, i);
    i
}

fn put_named(b: &mut [u8], p: Places, i: Index, name: &[u8])
    requires layout { Layout p (length b.old) }
    requires le_i { (1 ≤ i.0) × (i.0 ≤ p.indexes) × (length name.now ≤ 24) }
    ensures { b.new ≡ put_named p b.old i.0 name.now }
{
    index::put_word(b, p, i, i.0);
    index::put_name(b, p, i, name);
}

fn put_dates(b: &mut [u8], p: Places, i: Index, date: &[u8])
    requires layout { Layout p (length b.old) }
    requires le_i { (1 ≤ i.0) × (i.0 ≤ p.indexes) × (length date.now ≡ 6) }
    ensures { b.new ≡ put_dates p b.old i.0 date.now }
{
    index::put_creation_date(b, p, i, date);
    index::put_change_date(b, p, i, date);
}

fn put_size(b: &mut [u8], p: Places, i: Index, long: u32, attribute: u32)
    requires layout { Layout p (length b.old) }
    requires le_i { (1 ≤ i.0) × (i.0 ≤ p.indexes) × (attribute < 65536) }
    ensures { b.new ≡ put_size p b.old i.0 long attribute }
{
    index::put_length(b, p, i, long);
    index::put_attribute(b, p, i, attribute);
}

// Makes the first free index table the parent of a file that has no pointers yet.
pub fn put_new_parent(b: &mut [u8], p: Places, n: NewParent) -> Index
    requires layout { Layout p (length b.old) }
    requires head { Head p b.old }
    requires name_len_bound { (length n.name.now ≤ 24) × (length n.date.now ≡ 6) × (n.attribute < 65536) }
    ensures { (result.0 ≡ first_free_of b.old) × (b.new ≡ put_new_parent p b.old (new_of n.entry)) }
{
    let i = take_table(b, p);
    put_named(b, p, i, n.name);
    put_dates(b, p, i, n.date);
    put_size(b, p, i, n.length, n.attribute);
    i
}

// Sector 1 with an active file more, and the date as latest update.
pub fn count_file(b: &mut [u8], system: u32, directory: u32, date: &[u8])
    requires in_bounds { 2048 ≤ length b.old }
    requires b_bound { (active_of b.old < 4294967295) × (system_of b.old + system < 65536) × (directory_of b.old + directory < 65536) }
    requires date_len { length date.now ≡ 6 }
    ensures { b.new ≡ count_file b.old system directory date.now }
{
    let active = sector1::active_files(b) + 1;
    let systems = sector1::system_files(b) + system;
    let directories = sector1::directory_files(b) + directory;
    sector1::put_active(b, active);
    sector1::put_system(b, systems);
    sector1::put_directory(b, directories);
    sector1::put_latest(b, date);
}

// File f's change date and byte length, and the latest update.
pub fn put_change(b: &mut [u8], p: Places, f: Index, long: u32, date: &[u8])
    requires layout { Layout p (length b.old) }
    requires le_f { (1 ≤ f.0) × (f.0 ≤ p.indexes) × (length date.now ≡ 6) }
    ensures { b.new ≡ put_change p b.old f.0 long date.now }
{
    index::put_change_date(b, p, f, date);
    index::put_length(b, p, f, long);
    sector1::put_latest(b, date);
}
