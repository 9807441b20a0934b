// Blocks: the sectors that a zone of a type gives out together. A type is a number here, as the books have it: sizes and weights are reckoned
// from it, and an enum would be turned back into it at each use.
ghost use Rattle.std.specs.Prelude.{◌≡◌};
ghost use Rattle.field.specs.Says.{Says};
ghost use Rattle.tables.specs.Blocks.{ZoneType, DataType, block_of, per_zone, Block};

use crate::sizes::ZONE;

// The types that a zone may have, B to H: headers lie in zones of the first.
pub const HEADER_TYPE: u32 = 2;

// Files lie in those of the others, C to H.
const LOWEST: u32 = 3;

const HIGHEST: u32 = 8;

pub fn is_zone_type(t: u32) -> bool
    ensures { Says result (ZoneType t) }
{
    (HEADER_TYPE..=HIGHEST).contains(&t)
}

// Do files lie in zones of type t?
pub fn is_data_type(t: u32) -> bool
    ensures { Says result (DataType t) }
{
    (LOWEST..=HIGHEST).contains(&t)
}

// The sectors of a block of a zone of type t.
pub fn block_sectors(t: u32) -> u32
    requires { ZoneType t }
    ensures { (result ≡ block_of t) × Block result }
{
    if t == HEADER_TYPE {
        return 1;
    }
    1 << (2 * (t - LOWEST))
}

// The blocks of a zone of type t.
pub fn zone_blocks(t: u32) -> u32
    requires { ZoneType t }
    ensures { result ≡ per_zone t }
{
    ZONE / block_sectors(t)
}
