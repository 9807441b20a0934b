// The three kinds of number, which meet only in the conversions here.
ghost use Rattle.std.specs.Prelude.{◌≡◌, ◌≤◌};
ghost use Rattle.tables.specs.Kinds.{zone_of, first_of};

use crate::sizes::ZONE;

// A sector of the volume, from 0 on.
#[derive(Clone, Copy, PartialEq, Eq, PartialOrd, Ord)]
pub struct Sector(pub u32);

// A zone of 1,024 sectors, from 1 on.
#[derive(Clone, Copy, PartialEq, Eq, PartialOrd, Ord)]
pub struct Zone(pub u32);

// An index table, from 1 on; 0 is none, as it ends a chain in the books. That the books have it is a fact about both, so readers ask for it.
#[derive(Clone, Copy, PartialEq, Eq, PartialOrd, Ord)]
pub struct Index(pub u32);

// The zone that holds a sector.
pub fn zone_of(s: Sector) -> Zone
    ensures { result.0 ≡ zone_of s.0 }
{
    Zone(s.0 / ZONE + 1)
}

// A zone's first sector.
pub fn first_sector(z: Zone) -> Sector
    requires { (1 ≤ z.0) × (z.0 ≤ 256) }
    ensures { result.0 ≡ first_of z.0 }
{
    Sector(ZONE * (z.0 - 1))
}
