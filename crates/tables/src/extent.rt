// How far a table's pointers reach, and where a file lies.
ghost use Rattle.std.specs.Prelude.{◌≡◌, ◌≤◌, length};
ghost use Rattle.tables.specs.Indexes.{table_at, word_of, sectors_of};
ghost use Rattle.tables.specs.Views.{books_view};
ghost use Rattle.tables.specs.Rules.R6.{R6};
ghost use Rattle.tables.specs.Rules.R8.{file_type};

use crate::books::Books;
use crate::index;
use crate::kinds::{Index, zone_of};
use crate::zone::zone_entry;

// The sectors under the pointers of table i, whose bytes are t.
pub fn sectors_of(i: Index, t: &[u8]) -> u32
    requires { length t.now ≡ 128 }
    ensures { result ≡ sectors_of i.0 t.now }
{
    let slots = index::slots(i, t);
    let base = index::base(i, t);
    let mut sum: u32 = 0;
    for j in 0..slots {
        sum += index::pointer_at(t, base + index::POINTER * j).count;
    }
    sum
}

// The type of the zone in which the first sector of parent f lies.
pub fn file_type(b: &Books<'_>, f: Index) -> u32
    requires r6 { R6 (books_view b.now) }
    requires le_f { (1 ≤ f.0) × (f.0 ≤ b.now.places.indexes) }
    requires f_value { word_of (table_at b.now.places b.now.raw.now f.0) ≡ f.0 }
    ensures { result ≡ file_type (books_view b.now) f.0 }
{
    let t = index::table(b, f);
    let q = index::pointer_at(t, index::base(f, t));
    zone_entry(b, zone_of(q.start)).ztype
}
