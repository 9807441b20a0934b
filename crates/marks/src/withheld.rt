// The withheld list: 7 where it is too long, unordered, or names a sector that starts no block of a zone in which files lie; and the marks of
// its blocks, with which the examination of R7 begins.
ghost use Rattle.std.specs.Prelude.{◌≡◌, ◌+◌, ◌≤◌, ◌<◌, length};
ghost use Rattle.field.specs.Says.{Says};
ghost use Rattle.tables.specs.Views.{books_view};
ghost use Rattle.tables.specs.Withheld.{block_at, StartsBlock, Withholds, withheld_over};
ghost use Rattle.tables.specs.Rules.R7.{nothing};
ghost use Rattle.marks.specs.Marks.{MarksAre};
ghost use Rattle.marks.specs.WithheldList.{InList};

use crate::marks::mark_run;
use tables::blocks::{block_sectors, is_data_type};
use tables::books::Books;
use tables::index::Pointer;
use tables::kinds::{Sector, zone_of};
use tables::sizes::ZONE;
use tables::zone::zone_entry;

// The most blocks that a list may have.
const MOST: usize = 512;

// Does sector s start a block of a zone of type 3 to 8?
fn starts_block(b: &Books<'_>, s: Sector) -> bool
    ensures { Says result (StartsBlock (books_view b.now) s.0) }
{
    if s.0 >= ZONE * b.places.zones {
        return false;
    }
    let t = zone_entry(b, zone_of(s)).ztype;
    is_data_type(t) && s.0 % ZONE % block_sectors(t) == 0
}

// Is the k-th sector of the list above the one before it, and does it start a block?
fn in_list(b: &Books<'_>, withheld: &[u32], k: usize) -> bool
    requires { k < length withheld.now }
    ensures { Says result (InList (books_view b.now) withheld.now k) }
{
    if k > 0 && withheld[k - 1] >= withheld[k] {
        return false;
    }
    starts_block(b, Sector(withheld[k]))
}

// 7: each sector of the list is looked at once.
pub fn withholds(b: &Books<'_>, withheld: &[u32]) -> bool
    ensures { Says result (Withholds (books_view b.now) withheld.now) }
{
    withheld.len() <= MOST && (0..withheld.len()).all(|k| in_list(b, withheld, k))
}

// The sectors of the block that begins at s.
fn block_from(b: &Books<'_>, s: Sector) -> Pointer
    requires starts_block { StartsBlock (books_view b.now) s.0 }
    ensures { (result.start.0 ≡ s.0) × (result.count ≡ block_at (books_view b.now) s.0) × (result.start.0 + result.count ≤ 262144) }
{
    let t = zone_entry(b, zone_of(s)).ztype;
    Pointer {
        start: s,
        count: block_sectors(t),
    }
}

// Marks the withheld blocks where nothing is marked. They lie apart, so that none is met marked.
pub fn mark_withheld(b: &Books<'_>, withheld: &[u32], m: &mut [u64])
    requires withholds { Withholds (books_view b.now) withheld.now }
    requires marks_are { MarksAre m.old nothing }
    ensures { MarksAre m.new (withheld_over (books_view b.now) withheld.now) }
{
    for s in withheld {
        mark_run(m, block_from(b, Sector(*s)));
    }
}
