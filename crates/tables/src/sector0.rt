// Sector 0: what the volume is. A writer for each field, and a reader for those that are read (000, 4.1.1).
// Each function names a field of the paper by its place and width; the generic readers and writers are the crate field's.
ghost use Rattle.std.specs.Prelude.{◌≡◌, ◌≤◌, ◌<◌, length};
ghost use Rattle.tables.specs.Sector0.{mark_of, put_mark, version_of, put_version, put_application, put_volume_name, put_volume_id, put_owner, put_owner_code, put_initialized, zones_of, put_zones, sectors_per_zone_of, put_sectors_per_zone, bytes_per_sector_of, put_bytes_per_sector, zone_start_of, put_zone_start, sector_start_of, put_sector_start, index_start_of, put_index_start, index_size_of, put_index_size};

use field::numbers::{get_u16, get_u32, put_u16, put_u32};
use field::parts::copy;

// The mark "IS&C" and the version "01.0".
pub const MARK: u32 = 0x49532643;

pub const VERSION: u32 = 0x30312e30;

// The format mark.
pub fn mark(b: &[u8]) -> u32
    requires { 2048 ≤ length b.now }
    ensures { result ≡ mark_of b.now }
{
    get_u32(b, 0)
}

pub fn put_mark(b: &mut [u8], n: u32)
    requires { 2048 ≤ length b.old }
    ensures { b.new ≡ put_mark b.old n }
{
    put_u32(b, 0, n);
}

// The version, four characters.
pub fn version(b: &[u8]) -> u32
    requires { 2048 ≤ length b.now }
    ensures { result ≡ version_of b.now }
{
    get_u32(b, 4)
}

pub fn put_version(b: &mut [u8], n: u32)
    requires { 2048 ≤ length b.old }
    ensures { b.new ≡ put_version b.old n }
{
    put_u32(b, 4, n);
}

pub fn put_application(b: &mut [u8], text: &[u8])
    requires { (2048 ≤ length b.old) × (length text.now ≤ 16) }
    ensures { b.new ≡ put_application b.old text.now }
{
    copy(b, 8, text);
}

pub fn put_volume_name(b: &mut [u8], text: &[u8])
    requires { (2048 ≤ length b.old) × (length text.now ≤ 32) }
    ensures { b.new ≡ put_volume_name b.old text.now }
{
    copy(b, 24, text);
}

pub fn put_volume_id(b: &mut [u8], n: u32)
    requires { 2048 ≤ length b.old }
    ensures { b.new ≡ put_volume_id b.old n }
{
    put_u32(b, 56, n);
}

pub fn put_owner(b: &mut [u8], text: &[u8])
    requires { (2048 ≤ length b.old) × (length text.now ≤ 32) }
    ensures { b.new ≡ put_owner b.old text.now }
{
    copy(b, 60, text);
}

pub fn put_owner_code(b: &mut [u8], text: &[u8])
    requires { (2048 ≤ length b.old) × (length text.now ≤ 32) }
    ensures { b.new ≡ put_owner_code b.old text.now }
{
    copy(b, 92, text);
}

// The initialization date.
pub fn put_initialized(b: &mut [u8], date: &[u8])
    requires { (2048 ≤ length b.old) × (length date.now ≡ 6) }
    ensures { b.new ≡ put_initialized b.old date.now }
{
    copy(b, 124, date);
}

// Z.
pub fn zones(b: &[u8]) -> u32
    requires { 2048 ≤ length b.now }
    ensures { result ≡ zones_of b.now }
{
    get_u32(b, 130)
}

pub fn put_zones(b: &mut [u8], n: u32)
    requires { 2048 ≤ length b.old }
    ensures { b.new ≡ put_zones b.old n }
{
    put_u32(b, 130, n);
}

pub fn sectors_per_zone(b: &[u8]) -> u32
    requires { 2048 ≤ length b.now }
    ensures { (result ≡ sectors_per_zone_of b.now) × (result < 65536) }
{
    get_u16(b, 134)
}

pub fn put_sectors_per_zone(b: &mut [u8], n: u32)
    requires { (2048 ≤ length b.old) × (n < 65536) }
    ensures { b.new ≡ put_sectors_per_zone b.old n }
{
    put_u16(b, 134, n);
}

pub fn bytes_per_sector(b: &[u8]) -> u32
    requires { 2048 ≤ length b.now }
    ensures { (result ≡ bytes_per_sector_of b.now) × (result < 65536) }
{
    get_u16(b, 136)
}

pub fn put_bytes_per_sector(b: &mut [u8], n: u32)
    requires { (2048 ≤ length b.old) × (n < 65536) }
    ensures { b.new ≡ put_bytes_per_sector b.old n }
{
    put_u16(b, 136, n);
}

// The start sector of the zone table.
pub fn zone_start(b: &[u8]) -> u32
    requires { 2048 ≤ length b.now }
    ensures { result ≡ zone_start_of b.now }
{
    get_u32(b, 138)
}

pub fn put_zone_start(b: &mut [u8], n: u32)
    requires { 2048 ≤ length b.old }
    ensures { b.new ≡ put_zone_start b.old n }
{
    put_u32(b, 138, n);
}

// The start sector of the sector table.
pub fn sector_start(b: &[u8]) -> u32
    requires { 2048 ≤ length b.now }
    ensures { result ≡ sector_start_of b.now }
{
    get_u32(b, 142)
}

pub fn put_sector_start(b: &mut [u8], n: u32)
    requires { 2048 ≤ length b.old }
    ensures { b.new ≡ put_sector_start b.old n }
{
    put_u32(b, 142, n);
}

// The start sector of the index tables.
pub fn index_start(b: &[u8]) -> u32
    requires { 2048 ≤ length b.now }
    ensures { result ≡ index_start_of b.now }
{
    get_u32(b, 146)
}

pub fn put_index_start(b: &mut [u8], n: u32)
    requires { 2048 ≤ length b.old }
    ensures { b.new ≡ put_index_start b.old n }
{
    put_u32(b, 146, n);
}

// The bytes of an index table.
pub fn index_size(b: &[u8]) -> u32
    requires { 2048 ≤ length b.now }
    ensures { (result ≡ index_size_of b.now) × (result < 65536) }
{
    get_u16(b, 150)
}

pub fn put_index_size(b: &mut [u8], n: u32)
    requires { (2048 ≤ length b.old) × (n < 65536) }
    ensures { b.new ≡ put_index_size b.old n }
{
    put_u16(b, 150, n);
}
