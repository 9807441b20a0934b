// The sector table: one bit a sector.
ghost use Rattle.std.specs.Prelude.{◌≡◌, ◌+◌, ◌*◌, ◌≤◌, ◌<◌, length};
ghost use Rattle.field.specs.Runs.{SetAhead};
ghost use Rattle.tables.specs.Places.{Layout};
ghost use Rattle.tables.specs.Sectors.{put_sectors};

use crate::books::Books;
use crate::kinds::Sector;
use crate::places::Places;
use field::runs::{set_ahead, set_bits};

// How many sectors from s on, of those that are left, are in use and can be passed over at once; none where s is free.
pub fn used_ahead(b: &Books<'_>, s: Sector, left: u32) -> u32
    requires left_nonzero { (0 < left) × (s.0 + left ≤ 1024 * b.now.places.zones) }
    ensures { SetAhead b.now.raw.now b.now.places.sectortable s.0 left result }
{
    set_ahead(b.raw, b.places.sectortable, s.0 as usize, left as usize) as u32
}

// Marks the n sectors from s on: 1 in use, 0 free.
pub fn put_sectors(b: &mut [u8], p: Places, s: Sector, n: u32, v: u32)
    requires layout { Layout p (length b.old) }
    requires n_bound { (s.0 + n ≤ 1024 * p.zones) × (v < 2) }
    ensures { b.new ≡ put_sectors p b.old s.0 n v }
{
    set_bits(b, p.sectortable, s.0 as usize, n as usize, v);
}
