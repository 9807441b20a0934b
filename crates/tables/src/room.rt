// Room for the blocks of a request: whether the open zones suffice for what the types lack.
ghost use Rattle.std.specs.Prelude.{◌≡◌, ◌≤◌, length};
ghost use Rattle.field.specs.Says.{Says};
ghost use Rattle.tables.specs.Blocks.{DataType};
ghost use Rattle.tables.specs.Views.{books_view};
ghost use Rattle.tables.specs.Room.{count_at, spare_in, spare_of, lack_of, Enough};

use crate::blocks::zone_blocks;
use crate::books::Books;
use crate::kinds::Zone;
use crate::open::{is_open, open_zones};
use crate::zone::{ZoneEntry, zone_entry};

// The free blocks that a zone has for type t, unless it is open. Full zones and zones of other types, of which
// a search meets most, are passed over first.
pub fn spare_in(t: u32, e: ZoneEntry) -> u64
    ensures { (result ≡ spare_in t e) × (result ≤ 4294967295) }
{
    if e.free == 0 || e.ztype != t || is_open(e) {
        return 0;
    }
    e.free as u64
}

// The free blocks of type t in the zones that are not open.
fn spare_of(b: &Books<'_>, t: u32) -> u64
    ensures { result ≡ spare_of (books_view b.now) t }
{
    (2..b.places.zones)
        .map(|z| spare_in(t, zone_entry(b, Zone(z))))
        .sum()
}

// The open zones that n blocks of type t take.
fn lack_of(b: &Books<'_>, t: u32, n: u32) -> u64
    requires data_type { DataType t }
    ensures { (result ≡ lack_of (books_view b.now) t n) × (result ≤ 4294968319) }
{
    if n == 0 {
        return 0;
    }
    let wanted = n as u64;
    let free = spare_of(b, t);
    if wanted <= free {
        return 0;
    }
    let per = zone_blocks(t) as u64;
    (wanted - free + (per - 1)) / per
}

// Whether there is a lawful choice of so many blocks of each type, H to C.
pub fn room(b: &Books<'_>, counts: [u32; 6]) -> bool
    ensures { Says result (Enough (books_view b.now) (count_at counts)) }
{
    let lacking: u64 = (3..9).map(|t| lack_of(b, t, counts[8 - t as usize])).sum();
    lacking <= open_zones(b) as u64
}
