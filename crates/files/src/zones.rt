// Zone entries once sectors have been freed: clear blocks that an entry does not count yet are counted in it.
ghost use Rattle.std.specs.Prelude.{◌≡◌, ℕ, ◌+◌, ◌-◌, ◌≤◌, ◌<◌, length};
ghost use Rattle.tables.specs.Blocks.{ZoneType, block_of};
ghost use Rattle.tables.specs.Kinds.{first_of};
ghost use Rattle.tables.specs.Places.{Layout};
ghost use Rattle.tables.specs.Rules.R3.{Blocks};
ghost use Rattle.tables.specs.Sectors.{sector_at};
ghost use Rattle.tables.specs.Views.{view_of};
ghost use Rattle.files.specs.Freed.{Short, AllShort};
ghost use Rattle.files.specs.Release.{recounted, recount_zone, recount_zones};

use field::runs::count_bits;
use tables::blocks::{block_sectors, is_zone_type, zone_blocks};
use tables::books::Books;
use tables::kinds::{Zone, first_sector};
use tables::places::Places;
use tables::sizes::ZONE;
use tables::zone::{ZoneEntry, put_zone, zone_entry};

// The bits of a zone.
const ZONE_LEN: usize = ZONE as usize;

// How many blocks of zone z, which is of type t, are clear.
fn clear_blocks(b: &Books<'_>, z: Zone, t: u32) -> u32
    requires le_z { (2 ≤ z.0) × (z.0 < b.now.places.zones) }
    requires zone_type { ZoneType t }
    ensures { (result ≤ 1024) × ((n : ℕ) → Blocks (sector_at b.now.places b.now.raw.now) (first_of z.0) (block_of t) n → result ≡ n) }
{
    let first = first_sector(z).0 as usize;
    let set = count_bits(b.raw, b.places.sectortable, first, ZONE_LEN);
    (ZONE - set) / block_sectors(t)
}

// A zone's entry with n blocks freed.
pub fn recounted(e: ZoneEntry, n: u32) -> ZoneEntry
    requires zone_type { ZoneType e.ztype }
    requires n_bound { e.free + n ≤ 1024 }
    ensures { result ≡ recounted e n }
{
    let free = e.free + n;
    if free == zone_blocks(e.ztype) {
        return ZoneEntry {
            ztype: 0,
            free: 0,
            third: 0,
        };
    }
    ZoneEntry { free, ..e }
}

// Zone z's entry, if it is of type 2-8.
fn recount_zone(b: &mut [u8], p: Places, z: Zone)
    requires layout { Layout p (length b.old) }
    requires le_z { (2 ≤ z.0) × (z.0 < p.zones) }
    ensures { (n : ℕ) → Short (view_of p b.old) z.0 n → b.new ≡ recount_zone p b.old z.0 n }
{
    let e = zone_entry(&Books { raw: b, places: p }, z);
    if !is_zone_type(e.ztype) {
        return;
    }
    let n = clear_blocks(&Books { raw: b, places: p }, z, e.ztype);
    if n <= e.free {
        return;
    }
    let x = recounted(e, n - e.free);
    put_zone(b, p, z, x.ztype, x.free, x.third);
}

// The entries of all zones but the first and the last.
pub fn recount_zones(b: &mut [u8], p: Places)
    requires { Layout p (length b.old) }
    ensures { (freed : ℕ → ℕ) → AllShort (view_of p b.old) freed → b.new ≡ recount_zones p b.old freed (p.zones - 2) }
{
    for z in 2..p.zones {
        recount_zone(b, p, Zone(z));
    }
}
