// Where the tables stand in the books, by value: what everything above reads of sector 0.
ghost use Rattle.std.specs.Prelude.{◌≡◌, ◌≤◌, length};
ghost use Rattle.tables.specs.Places.{places_of};

use crate::sizes::SECTOR_LEN;
use crate::{sector0, sector1};

// Z, N, and the bytes at which the zone table, the sector table and the index tables begin.
#[derive(Clone, Copy)]
pub struct Places {
    pub zones: u32,
    pub indexes: u32,
    pub zonetable: usize,
    pub sectortable: usize,
    pub indextable: usize,
}

pub fn read_places(b: &[u8]) -> Places
    requires { 2048 ≤ length b.now }
    ensures { result ≡ places_of b.now }
{
    Places {
        zones: sector0::zones(b),
        indexes: sector1::indexes(b),
        zonetable: SECTOR_LEN * (sector0::zone_start(b) as usize),
        sectortable: SECTOR_LEN * (sector0::sector_start(b) as usize),
        indextable: SECTOR_LEN * (sector0::index_start(b) as usize),
    }
}
