// The zone table: an entry of six bytes a zone.
ghost use Rattle.std.specs.Prelude.{◌≡◌, ◌≤◌, ◌<◌, length};
ghost use Rattle.tables.specs.Places.{Layout};
ghost use Rattle.tables.specs.Zones.{zone_at, put_zone};

use crate::books::Books;
use crate::kinds::Zone;
use crate::places::Places;
use crate::sizes::ENTRY_LEN;
use field::numbers::{get_u16, put_u16};

// Type, free blocks, third field.
#[derive(Clone, Copy, PartialEq, Eq)]
pub struct ZoneEntry {
    pub ztype: u32,
    pub free: u32,
    pub third: u32,
}

pub fn zone_entry(b: &Books<'_>, z: Zone) -> ZoneEntry
    requires le_z { (1 ≤ z.0) × (z.0 ≤ b.now.places.zones) }
    ensures { result ≡ zone_at b.now.places b.now.raw.now z.0 }
{
    let at = b.places.zonetable + ENTRY_LEN * (z.0 as usize - 1);
    ZoneEntry {
        ztype: get_u16(b.raw, at),
        free: get_u16(b.raw, at + 2),
        third: get_u16(b.raw, at + 4),
    }
}

// Makes zone z's entry (t, f, h).
pub fn put_zone(b: &mut [u8], p: Places, z: Zone, t: u32, f: u32, h: u32)
    requires layout { Layout p (length b.old) }
    requires le_z { (1 ≤ z.0) × (z.0 ≤ p.zones) }
    requires t_bound { (t < 65536) × (f < 65536) × (h < 65536) }
    ensures { b.new ≡ put_zone p b.old z.0 t f h }
{
    let at = p.zonetable + ENTRY_LEN * (z.0 as usize - 1);
    put_u16(b, at, t);
    put_u16(b, at + 2, f);
    put_u16(b, at + 4, h);
}
