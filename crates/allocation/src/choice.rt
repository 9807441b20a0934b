// The choice of blocks, one at a time, and a block taken.
ghost use Rattle.std.specs.Prelude.{◌≡◌, true, false, ◌-◌, ◌≤◌, ◌<◌, length, MatchOption};
ghost use Rattle.tables.specs.Blocks.{DataType, per_zone};
ghost use Rattle.tables.specs.Places.{Layout};
ghost use Rattle.tables.specs.Rules.R3.{R3};
ghost use Rattle.tables.specs.Views.{books_view, view_of};
ghost use Rattle.allocation.specs.Find.{find, ZoneFound};
ghost use Rattle.allocation.specs.Choice.{begun, lowest_open, is_clear, open_block, next_block, of_type, has_neighbour, neighbour, block_start, put_block};
ghost use Rattle.allocation.specs.Candidates.{Proper, Behind, Chooses};

use crate::tail::{Tail, end_sector};
use field::bits::get_bit;
use tables::blocks::{block_sectors, zone_blocks};
use tables::books::Books;
use tables::kinds::{Sector, Zone, first_sector, zone_of};
use tables::open::is_open;
use tables::places::Places;
use tables::room::spare_in;
use tables::sector::{put_sectors, used_ahead};
use tables::sizes::ZONE;
use tables::zone::{ZoneEntry, put_zone, zone_entry};

// A block by its zone, its number in the zone, and the free blocks that the zone has without it.
#[derive(Clone, Copy)]
pub struct Found {
    pub zone: Zone,
    pub number: u32,
    pub free: u32,
}

// A block chosen, and where the search for the next one of its type may begin.
#[derive(Clone, Copy)]
pub struct Choice {
    pub block: Found,
    pub from: Found,
}

// The lowest zone from `from` on that has a free block of type t and isn't open.
fn begun_from(b: &Books<'_>, t: u32, from: Zone) -> Option<Zone>
    requires le_from { (2 ≤ from.0) × (from.0 ≤ b.now.places.zones) }
    ensures { ZoneFound b.now.places.zones (find (begun (books_view b.now) t) (b.now.places.zones - from.0) from.0) result }
{
    (from.0..b.places.zones)
        .find(|z| spare_in(t, zone_entry(b, Zone(*z))) > 0)
        .map(Zone)
}

// The lowest open zone.
pub fn lowest_open(b: &Books<'_>) -> Option<Zone>
    ensures { ZoneFound b.now.places.zones (lowest_open (books_view b.now)) result }
{
    (2..b.places.zones)
        .find(|z| is_open(zone_entry(b, Zone(*z))))
        .map(Zone)
}

// The lowest free block from `from` on of zone z, of type t; the number after the last where none is, which R3 excludes in a begun zone, so that
// an Option would only add a case. Sectors in use are passed over together, and with them every block that begins in them: steps of many
// lengths, and no range for a `for`.
fn clear_from(b: &Books<'_>, t: u32, z: Zone, from: u32) -> u32
    requires data_type { DataType t }
    requires le_z { (2 ≤ z.0) × (z.0 < b.now.places.zones) × (from ≤ per_zone t) }
    ensures { result ≡ find (is_clear (books_view b.now) t z.0) (per_zone t - from) from }
{
    let first = first_sector(z).0;
    let size = block_sectors(t);
    let last = zone_blocks(t);
    let mut k = from;
    while k < last {
        let at = k * size;
        let used = used_ahead(b, Sector(first + at), ZONE - at);
        if used == 0 {
            return k;
        }
        k += (used + (size - 1)) / size;
    }
    k
}

// Block 0 of the lowest open zone; in zone Z where there is none.
fn open_block(b: &Books<'_>, t: u32) -> Found
    requires data_type { DataType t }
    ensures { result ≡ open_block (books_view b.now) t }
{
    Found {
        zone: lowest_open(b).unwrap_or(Zone(b.places.zones)),
        number: 0,
        free: zone_blocks(t) - 1,
    }
}

// Where the search in zone z begins: at the last block if that was in it.
fn resume(z: Zone, last: Found) -> u32
    ensures { (result ≤ last.number) × ((z.0 ≡ last.zone.0) → result ≡ last.number) × ((z.0 ≡ last.zone.0 → ⊥) → result ≡ 0) }
{
    if z == last.zone {
        return last.number;
    }
    0
}

// The next block of type t; none is looked for below the last one.
fn next_block(b: &Books<'_>, t: u32, last: Found) -> Found
    requires data_type { DataType t }
    requires behind { Behind (books_view b.now) t last }
    ensures { result ≡ next_block (books_view b.now) t }
{
    let Some(z) = begun_from(b, t, last.zone) else {
        return open_block(b, t);
    };
    Found {
        zone: z,
        number: clear_from(b, t, z, resume(z, last)),
        free: zone_entry(b, z).free - 1,
    }
}

// Is a zone with this entry of type t, and not open?
fn of_type(e: ZoneEntry, t: u32) -> bool
    ensures { result ≡ of_type t e }
{
    if e.ztype != t {
        return false;
    }
    !is_open(e)
}

// The block that starts at the sector behind the last pointer's last, if it is free, of a zone of type t that isn't open.
fn neighbour(b: &Books<'_>, l: Tail, t: u32) -> Option<Found>
    requires data_type { DataType t }
    requires r3 { R3 (books_view b.now) }
    ensures { MatchOption result (has_neighbour (books_view b.now) l t ≡ false) (λ k. (has_neighbour (books_view b.now) l t ≡ true) × (k ≡ neighbour (books_view b.now) l t)) }
{
    let end = end_sector(l);
    if end < ZONE as u64 {
        return None;
    }
    if end >= ZONE as u64 * (b.places.zones as u64 - 1) {
        return None;
    }
    let s = Sector(end as u32);
    let zone = zone_of(s);
    let e = zone_entry(b, zone);
    if !of_type(e, t) {
        return None;
    }
    let size = block_sectors(t);
    if s.0 % ZONE % size != 0 {
        return None;
    }
    if get_bit(b.raw, b.places.sectortable, s.0 as usize) != 0 {
        return None;
    }
    Some(Found {
        zone,
        number: s.0 % ZONE / size,
        free: e.free - 1,
    })
}

// The block of type t that is added after the tail l: the neighbour if there is one, else the next one, which is not looked for below `from`.
// Inlined, because each of the two ways to add blocks calls it once a block.
#[inline(always)]
pub fn choose_block(b: &Books<'_>, l: Tail, t: u32, from: Found) -> Choice
    requires data_type { DataType t }
    requires r3 { R3 (books_view b.now) }
    requires behind { Behind (books_view b.now) t from }
    ensures { Chooses (books_view b.now) l t result }
{
    if let Some(block) = neighbour(b, l, t) {
        return Choice { block, from };
    }
    let k = next_block(b, t, from);
    Choice { block: k, from: k }
}

// A block's first sector.
pub fn block_start(t: u32, k: Found) -> Sector
    requires data_type { DataType t }
    requires le_zone { (1 ≤ k.zone.0) × (k.zone.0 ≤ 256) × (k.number < per_zone t) }
    ensures { result.0 ≡ block_start t k }
{
    Sector(first_sector(k.zone).0 + k.number * block_sectors(t))
}

// Takes the block: its zone's entry, and its sectors' bits.
pub fn put_block(b: &mut [u8], p: Places, t: u32, k: Found)
    requires layout { Layout p (length b.old) }
    requires proper { Proper (view_of p b.old) t k }
    ensures { b.new ≡ put_block p b.old t k }
{
    put_zone(b, p, k.zone, t, k.free, 0);
    put_sectors(b, p, block_start(t, k), block_sectors(t), 1);
}
