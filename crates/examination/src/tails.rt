// R1's tails: what the zone and the sector table leave of their last sectors is null.
ghost use Rattle.std.specs.Prelude.{◌+◌, ◌-◌, ◌*◌, ◌/◌, length};
ghost use Rattle.field.specs.Says.{Says};
ghost use Rattle.field.specs.Parts.{AllBytes};
ghost use Rattle.tables.specs.Rules.R1.{Stand, Tails, zone_bytes, sector_bytes};
ghost use Rattle.examination.specs.Examined.{PlacedAt};
ghost use Rattle.examination.specs.Findings.{Finds};
ghost use Rattle.examination.specs.Rulings.{TailLaw};

use field::parts::bytes_all;
use tables::books::Books;
use tables::sizes::{ENTRY_LEN, ROUND_UP_LEN, SECTOR, SECTOR_LEN, ZONE_BITS};

// The zone table's.
fn zone_tail_null(b: &Books<'_>) -> bool
    requires stand { Stand b.now.places (length b.now.raw.now) }
    ensures { Says result (AllBytes b.now.raw.now (b.now.places.zonetable + 6 * b.now.places.zones) (zone_bytes b.now.places.zones - 6 * b.now.places.zones) 0) }
{
    let z = b.places.zones as usize;
    let entries = SECTOR_LEN * ((ENTRY_LEN * z + ROUND_UP_LEN) / SECTOR_LEN);
    bytes_all(
        b.raw,
        b.places.zonetable + ENTRY_LEN * z,
        entries - ENTRY_LEN * z,
        0,
    )
}

// The sector table's.
fn sector_tail_null(b: &Books<'_>) -> bool
    requires stand { Stand b.now.places (length b.now.raw.now) }
    ensures { Says result (AllBytes b.now.raw.now (b.now.places.sectortable + 128 * b.now.places.zones) (sector_bytes b.now.places.zones - 128 * b.now.places.zones) 0) }
{
    let z = b.places.zones as usize;
    let bits = SECTOR_LEN * ((z + 7) / 8);
    bytes_all(
        b.raw,
        b.places.sectortable + ZONE_BITS * z,
        bits - ZONE_BITS * z,
        0,
    )
}

pub fn tails_null(b: &Books<'_>) -> bool
    requires stand { Stand b.now.places (length b.now.raw.now) }
    ensures { Says result (Tails b.now.places b.now.raw.now) }
{
    zone_tail_null(b) && sector_tail_null(b)
}

// The lowest sector of the books with a tail byte that is not null. A tail lies in its table's last sector.
pub fn rule1_place(b: &Books<'_>) -> Option<u32>
    requires { PlacedAt b.now.raw.now b.now.places }
    ensures { Finds (TailLaw b.now.places b.now.raw.now) 0 (length b.now.raw.now / 1024) result }
{
    let z = b.places.zones as usize;
    if !zone_tail_null(b) {
        return Some((b.places.zonetable + ENTRY_LEN * z) as u32 / SECTOR);
    }
    if !sector_tail_null(b) {
        return Some((b.places.sectortable + ZONE_BITS * z) as u32 / SECTOR);
    }
    None
}
