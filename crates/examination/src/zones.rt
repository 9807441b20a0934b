// R2 and R3: zone by zone, what the zone table says against the sector bits.
ghost use Rattle.std.specs.Prelude.{◌⊎◌, ◌+◌, ◌≤◌, ◌<◌, length};
ghost use Rattle.field.specs.Says.{Says};
ghost use Rattle.tables.specs.Blocks.{Block};
ghost use Rattle.examination.specs.Findings.{Finds};
ghost use Rattle.tables.specs.Kinds.{first_of};
ghost use Rattle.tables.specs.Rules.R2.{Reads, ZoneBits, Untyped, InUse, ZoneLaw};
ghost use Rattle.tables.specs.Rules.R3.{Blocks, BlockLaw};
ghost use Rattle.tables.specs.Views.{books_view};
ghost use Rattle.tables.specs.Zones.{zone_at};

use crate::whole::blocks_whole;
use field::runs::{bits_all, count_bits};
use tables::blocks::{block_sectors, is_zone_type};
use tables::books::Books;
use tables::kinds::{Zone, first_sector};
use tables::sizes::ZONE;
use tables::zone::{ZoneEntry, zone_entry};

// The entry of a zone of no type.
const UNTYPED: ZoneEntry = ZoneEntry {
    ztype: 0,
    free: 0,
    third: 0,
};

// Is every sector bit of the zone w?
fn zone_bits(b: &Books<'_>, z: Zone, w: u32) -> bool
    requires le_z { (1 ≤ z.0) × (z.0 ≤ b.now.places.zones) × (w < 2) }
    ensures { Says result (ZoneBits (books_view b.now) z.0 w) }
{
    bits_all(
        b.raw,
        b.places.sectortable,
        first_sector(z).0 as usize,
        ZONE as usize,
        w,
    )
}

// The first zone and the last: free count -1, and every bit set.
fn system_zone(b: &Books<'_>, z: Zone, ztype: u32, third: u32) -> bool
    requires le_z { (1 ≤ z.0) × (z.0 ≤ b.now.places.zones) }
    ensures { Says result (Reads (zone_at b.now.places b.now.raw.now z.0) ztype 65535 third × ZoneBits (books_view b.now) z.0 1) }
{
    let reads = ZoneEntry {
        ztype,
        free: 65535,
        third,
    };
    zone_entry(b, z) == reads && zone_bits(b, z, 1)
}

fn other_zone(b: &Books<'_>, z: Zone) -> bool
    requires le_z { (2 ≤ z.0) × (z.0 < b.now.places.zones) }
    ensures { Says result (Untyped (books_view b.now) z.0 ⊎ InUse (books_view b.now) z.0) }
{
    let e = zone_entry(b, z);
    if e == UNTYPED {
        return zone_bits(b, z, 0);
    }
    is_zone_type(e.ztype) && e.third == 0
}

fn zone_law(b: &Books<'_>, z: Zone) -> bool
    requires le_z { (1 ≤ z.0) × (z.0 ≤ b.now.places.zones) }
    ensures { Says result (ZoneLaw (books_view b.now) z.0) }
{
    if z.0 == 1 {
        return system_zone(b, z, 1, b.places.zones);
    }
    if z.0 == b.places.zones {
        return system_zone(b, z, 65535, 1);
    }
    other_zone(b, z)
}

// R2, or the first zone that breaks it.
pub fn rule2(b: &Books<'_>) -> Option<u32>
    ensures { Finds (ZoneLaw (books_view b.now)) 1 (b.now.places.zones + 1) result }
{
    (1..b.places.zones + 1).find(|z| !zone_law(b, Zone(*z)))
}

// Are the zone's blocks of `size` sectors whole, and `free` of them clear? Whole blocks are counted by their bits.
fn blocks_valid(b: &Books<'_>, z: Zone, size: u32, free: u32) -> bool
    requires le_z { (2 ≤ z.0) × (z.0 < b.now.places.zones) }
    requires block { Block size }
    ensures { Says result (Blocks (books_view b.now).bit (first_of z.0) size free) }
{
    let from = first_sector(z);
    blocks_whole(b.raw, b.places.sectortable, from, size)
        && (ZONE - count_bits(b.raw, b.places.sectortable, from.0 as usize, ZONE as usize)) / size
            == free
}

fn block_law(b: &Books<'_>, z: Zone) -> bool
    requires le_z { (2 ≤ z.0) × (z.0 < b.now.places.zones) }
    ensures { Says result (BlockLaw (books_view b.now) z.0) }
{
    let e = zone_entry(b, z);
    !is_zone_type(e.ztype) || blocks_valid(b, z, block_sectors(e.ztype), e.free)
}

// R3, or the first zone that breaks it.
pub fn rule3(b: &Books<'_>) -> Option<u32>
    ensures { Finds (BlockLaw (books_view b.now)) 2 b.now.places.zones result }
{
    (2..b.places.zones).find(|z| !block_law(b, Zone(*z)))
}
