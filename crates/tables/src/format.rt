// Format: empty books for a volume of given sizes and label. One function a part of the definition `formatted`.
ghost use Rattle.std.specs.Prelude.{◌≡◌, ◌-◌, ◌≤◌, length, replicate};
ghost use Rattle.tables.specs.Places.{Layout};
ghost use Rattle.tables.specs.Format.{Formattable, Writable, label_of, fresh_places, put_system_zones, put_links, formatted};

use crate::fresh::{write_sector0, write_status};
use crate::index::LINK;
use crate::kinds::Zone;
use crate::label::Label;
use crate::places::Places;
use crate::sizes::{ENTRY_LEN, ROUND_UP_LEN, SECTOR_LEN, TABLE_LEN, ZONE_BITS};
use crate::zone::put_zone;
use field::numbers::put_u32;
use field::parts::fill;

// Where the tables of fresh books stand.
pub fn fresh_places(zones: u32, indexes: u32) -> Places
    requires { zones ≤ 256 }
    ensures { result ≡ fresh_places zones indexes }
{
    let zonebytes = SECTOR_LEN * ((ENTRY_LEN * (zones as usize) + ROUND_UP_LEN) / SECTOR_LEN);
    let sectorbytes = SECTOR_LEN * ((zones as usize + 7) / 8);
    Places {
        zones,
        indexes,
        zonetable: 2048,
        sectortable: 2048 + zonebytes,
        indextable: 2048 + zonebytes + sectorbytes,
    }
}

fn zero_books(b: &mut [u8])
    ensures { b.new ≡ replicate (length b.old) 0 }
{
    let n = b.len();
    fill(b, 0, n, 0);
}

// The two system zones, first and last: their entries and their sectors.
fn write_system(b: &mut [u8], p: Places)
    requires { Layout p (length b.old) }
    ensures { b.new ≡ put_system_zones p b.old }
{
    let zones = p.zones;
    put_zone(b, p, Zone(1), 1, 65535, zones);
    put_zone(b, p, Zone(zones), 65535, 65535, 1);
    fill(b, p.sectortable, ZONE_BITS, 255);
    fill(
        b,
        p.sectortable + ZONE_BITS * (zones as usize - 1),
        ZONE_BITS,
        255,
    );
}

// The free chain 1, 2, .., N.
fn write_links(b: &mut [u8], p: Places)
    requires { Layout p (length b.old) }
    ensures { b.new ≡ put_links p b.old (p.indexes - 1) }
{
    for k in 0..p.indexes - 1 {
        put_u32(b, p.indextable + TABLE_LEN * (k as usize) + LINK, k + 2);
    }
}

// Zone table, sector table and index tables.
fn write_tables(b: &mut [u8], zones: u32, indexes: u32)
    requires { Layout (fresh_places zones indexes) (length b.old) }
    ensures { b.new ≡ put_links (fresh_places zones indexes) (put_system_zones (fresh_places zones indexes) b.old) (indexes - 1) }
{
    let p = fresh_places(zones, indexes);
    write_system(b, p);
    write_links(b, p);
}

// Formats the books. The caller has seen that the sizes are allowed and the label fits its fields.
pub fn write_format(b: &mut [u8], zones: u32, indexes: u32, label: &Label<'_>)
    requires formattable { Formattable (length b.old) zones indexes }
    requires in_bounds { (5120 ≤ length b.old) × (length b.old ≤ 1048576) }
    requires writable { Writable (label_of label.now) }
    ensures { b.new ≡ formatted (length b.old) zones indexes (label_of label.now) }
{
    zero_books(b);
    write_sector0(b, zones, label);
    write_status(b, indexes, label.date);
    write_tables(b, zones, indexes);
}
