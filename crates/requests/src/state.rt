// A file's attribute and sector 1's counts, written: what temporary delete, recover and set protection do.
ghost use Rattle.std.specs.Prelude.{◌≡◌, ◌≤◌, ◌<◌, length};
ghost use Rattle.tables.specs.Books.{GoodSome};
ghost use Rattle.tables.specs.Indexes.{table_at, attribute_of, deleted_bit};
ghost use Rattle.tables.specs.Places.{Layout};
ghost use Rattle.tables.specs.Views.{view_of, Parent};
ghost use Rattle.requests.specs.State.{put_state, put_counts, removed, recovered, protection_of, protected};

use tables::books::Books;
use tables::index::{DIRECTORY, SYSTEM, attribute, put_attribute, put_change_date, table};
use tables::kinds::Index;
use tables::places::Places;
use tables::sector1;

// The attribute of file f, its change date, and the latest update.
pub fn put_state(b: &mut [u8], p: Places, f: Index, a: u32, date: &[u8])
    requires layout { Layout p (length b.old) }
    requires le_f { (1 ≤ f.0) × (f.0 ≤ p.indexes) × (a < 65536) × (length date.now ≡ 6) }
    ensures { b.new ≡ put_state p b.old f.0 a date.now }
{
    put_change_date(b, p, f, date);
    put_attribute(b, p, f, a);
    sector1::put_latest(b, date);
}

// Sector 1's counts of files.
fn put_counts(b: &mut [u8], active: u32, deleted: u32, system: u32, directory: u32)
    requires in_bounds { 2048 ≤ length b.old }
    requires system_bound { (system < 65536) × (directory < 65536) }
    ensures { b.new ≡ put_counts b.old active deleted system directory }
{
    sector1::put_active(b, active);
    sector1::put_deleted(b, deleted);
    sector1::put_system(b, system);
    sector1::put_directory(b, directory);
}

// The attribute with w for weights 4 and 8.
fn protection_of(a: u32, w: u32) -> u32
    requires { (a < 128) × (w ≤ 12) }
    ensures { (result ≡ protection_of a w) × (result < 65536) }
{
    a / 16 * 16 + w + a % 4
}

// File f temporarily deleted.
pub fn remove(b: &mut [u8], p: Places, f: Index, date: &[u8])
    requires good_some { GoodSome b.old p }
    requires parent { Parent (view_of p b.old) f.0 }
    requires f_value { deleted_bit (attribute_of (table_at p b.old f.0)) ≡ 0 }
    requires date_len { length date.now ≡ 6 }
    ensures { b.new ≡ removed p b.old f.0 date.now }
{
    let a = attribute(table(&Books { raw: b, places: p }, f));
    let active = sector1::active_files(b) - 1;
    let deleted = sector1::deleted_files(b) + 1;
    let system = sector1::system_files(b) - a / SYSTEM % 2;
    let directory = sector1::directory_files(b) - a / DIRECTORY % 2;
    put_counts(b, active, deleted, system, directory);
    put_state(b, p, f, a + 1, date);
}

// File f recovered.
pub fn restore(b: &mut [u8], p: Places, f: Index, date: &[u8])
    requires good_some { GoodSome b.old p }
    requires parent { Parent (view_of p b.old) f.0 }
    requires f_value { deleted_bit (attribute_of (table_at p b.old f.0)) ≡ 1 }
    requires date_len { length date.now ≡ 6 }
    ensures { b.new ≡ recovered p b.old f.0 date.now }
{
    let a = attribute(table(&Books { raw: b, places: p }, f));
    let active = sector1::active_files(b) + 1;
    let deleted = sector1::deleted_files(b) - 1;
    let system = sector1::system_files(b) + a / SYSTEM % 2;
    let directory = sector1::directory_files(b) + a / DIRECTORY % 2;
    put_counts(b, active, deleted, system, directory);
    put_state(b, p, f, a - 1, date);
}

// File f with w for its protection.
pub fn protect(b: &mut [u8], p: Places, f: Index, w: u32, date: &[u8])
    requires good_some { GoodSome b.old p }
    requires parent { Parent (view_of p b.old) f.0 }
    requires w_bound { (w ≤ 12) × (length date.now ≡ 6) }
    ensures { b.new ≡ protected p b.old f.0 w date.now }
{
    let a = attribute(table(&Books { raw: b, places: p }, f));
    put_state(b, p, f, protection_of(a, w), date);
}
