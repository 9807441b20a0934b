// The sizes of the layout: of zones, sectors, zone entries and index tables.

// The sectors of a zone, and the bytes of their bits in the sector table.
pub const ZONE: u32 = 1024;

pub const ZONE_BITS: usize = 128;

// The bytes of a sector, as lengths and amounts count them and as places in a buffer; and what is added to round up to whole sectors.
pub const SECTOR: u32 = 1024;

pub const SECTOR_LEN: usize = SECTOR as usize;

pub const ROUND_UP: u32 = SECTOR - 1;

pub const ROUND_UP_LEN: usize = SECTOR_LEN - 1;

// The bytes of a zone entry and of an index table, likewise.
pub const ENTRY: u32 = 6;

pub const ENTRY_LEN: usize = ENTRY as usize;

pub const TABLE: u32 = 128;

pub const TABLE_LEN: usize = TABLE as usize;
