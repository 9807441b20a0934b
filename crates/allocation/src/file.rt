// A new file, and a file that grows: what the upper part asks of the lower one.
ghost use Rattle.std.specs.Prelude.{◌≡◌, ◌≤◌, ◌<◌, length};
ghost use Rattle.tables.specs.Blocks.{DataType};
ghost use Rattle.tables.specs.Sector1.{first_free_of};
ghost use Rattle.tables.specs.Views.{view_of, Parent};
ghost use Rattle.allocation.specs.NewTables.{new_of};
ghost use Rattle.allocation.specs.NextPointer.{no_pointer};
ghost use Rattle.allocation.specs.Last.{cursor_of};
ghost use Rattle.allocation.specs.MadeFiles.{only_counts, ProvidedSome, started, created, grown};

use crate::growth::{Cursor, lay_all};
use crate::last::cursor_of;
use crate::new_parent::NewParent;
use crate::table::{count_file, put_change, put_new_parent};
use crate::tail::no_pointer;
use tables::books::Books;
use tables::index::{DIRECTORY, SYSTEM};
use tables::kinds::Index;
use tables::places::Places;

// n blocks of type t and of no other, H to C.
pub fn only_counts(t: u32, n: u32) -> [u32; 6]
    requires { DataType t }
    ensures { result ≡ only_counts t n }
{
    let mut c = [0u32; 6];
    c[8 - t as usize] = n;
    c
}

// The file's parent, without pointers, and sector 1 with it.
fn start_file(b: &mut [u8], p: Places, n: NewParent, counts: [u32; 6]) -> Index
    requires provided_some { ProvidedSome p b.old no_pointer counts }
    requires name_len_bound { (length n.name.now ≤ 24) × (length n.date.now ≡ 6) × (n.attribute < 128) }
    ensures { (result.0 ≡ first_free_of b.old) × (record { books = b.new; cursor = record { tail = no_pointer; table = result } } ≡ started p b.old (new_of n.entry)) }
{
    let f = put_new_parent(b, p, n);
    count_file(
        b,
        n.attribute / SYSTEM % 2,
        n.attribute / DIRECTORY % 2,
        n.date,
    );
    f
}

// A new file with blocks of these counts.
pub fn create_file(b: &mut [u8], p: Places, n: NewParent, counts: [u32; 6]) -> Index
    requires provided_some { ProvidedSome p b.old no_pointer counts }
    requires name_len_bound { (length n.name.now ≤ 24) × (length n.date.now ≡ 6) × (n.attribute < 128) }
    ensures { (result.0 ≡ first_free_of b.old) × (b.new ≡ created p b.old (new_of n.entry) counts) }
{
    let f = start_file(b, p, n, counts);
    let from = Cursor {
        tail: no_pointer(),
        table: f,
    };
    lay_all(b, p, f, counts, from);
    f
}

// File f with blocks of these counts more, and so many bytes.
pub fn grow_file(b: &mut [u8], p: Places, f: Index, counts: [u32; 6], long: u32, date: &[u8])
    requires provided_some { ProvidedSome p b.old (cursor_of p b.old f.0).tail counts }
    requires parent { Parent (view_of p b.old) f.0 }
    requires date_len { length date.now ≡ 6 }
    ensures { b.new ≡ grown p b.old f.0 counts long date.now }
{
    let c = cursor_of(&Books { raw: b, places: p }, f);
    lay_all(b, p, f, counts, c);
    put_change(b, p, f, long, date);
}
