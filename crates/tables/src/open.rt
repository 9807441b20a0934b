// Open zones: those that any type may take.
ghost use Rattle.std.specs.Prelude.{◌≡◌, ◌≤◌, length};
ghost use Rattle.tables.specs.Views.{books_view, only_if};
ghost use Rattle.tables.specs.Open.{is_open, open_zones};

use crate::blocks::{is_zone_type, zone_blocks};
use crate::books::Books;
use crate::kinds::Zone;
use crate::zone::{ZoneEntry, zone_entry};

pub fn is_open(e: ZoneEntry) -> bool
    ensures { result ≡ is_open e }
{
    let t = e.ztype;
    t == 0 || is_zone_type(t) && e.free == zone_blocks(t)
}

// How many zones are open.
pub fn open_zones(b: &Books<'_>) -> u32
    ensures { (result ≡ open_zones (books_view b.now)) × (result ≤ 254) }
{
    (2..b.places.zones)
        .filter(|z| is_open(zone_entry(b, Zone(*z))))
        .count() as u32
}
