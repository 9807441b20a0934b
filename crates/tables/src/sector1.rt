// Sector 1: what the volume holds now. A reader and a writer for each field (000, 4.1.2).
// Each function names a field of the paper by its place and width; the generic readers and writers are the crate field's.
ghost use Rattle.std.specs.Prelude.{◌≡◌, ◌≤◌, ◌<◌, length};
ghost use Rattle.tables.specs.Sector1.{indexes_of, put_indexes, active_of, put_active, deleted_of, put_deleted, free_of, put_free, system_of, put_system, directory_of, put_directory, put_latest, first_free_of, put_first_free, flag_of, put_flag};

use crate::kinds::Index;
use field::numbers::{get_u16, get_u32, put_u16, put_u32};
use field::parts::copy;

// N.
pub fn indexes(b: &[u8]) -> u32
    requires { 2048 ≤ length b.now }
    ensures { result ≡ indexes_of b.now }
{
    get_u32(b, 1024)
}

pub fn put_indexes(b: &mut [u8], n: u32)
    requires { 2048 ≤ length b.old }
    ensures { b.new ≡ put_indexes b.old n }
{
    put_u32(b, 1024, n);
}

pub fn active_files(b: &[u8]) -> u32
    requires { 2048 ≤ length b.now }
    ensures { result ≡ active_of b.now }
{
    get_u32(b, 1028)
}

pub fn put_active(b: &mut [u8], n: u32)
    requires { 2048 ≤ length b.old }
    ensures { b.new ≡ put_active b.old n }
{
    put_u32(b, 1028, n);
}

// The files that are temporarily deleted.
pub fn deleted_files(b: &[u8]) -> u32
    requires { 2048 ≤ length b.now }
    ensures { result ≡ deleted_of b.now }
{
    get_u32(b, 1032)
}

pub fn put_deleted(b: &mut [u8], n: u32)
    requires { 2048 ≤ length b.old }
    ensures { b.new ≡ put_deleted b.old n }
{
    put_u32(b, 1032, n);
}

// The free index tables.
pub fn free_indexes(b: &[u8]) -> u32
    requires { 2048 ≤ length b.now }
    ensures { result ≡ free_of b.now }
{
    get_u32(b, 1036)
}

pub fn put_free(b: &mut [u8], n: u32)
    requires { 2048 ≤ length b.old }
    ensures { b.new ≡ put_free b.old n }
{
    put_u32(b, 1036, n);
}

pub fn system_files(b: &[u8]) -> u32
    requires { 2048 ≤ length b.now }
    ensures { (result ≡ system_of b.now) × (result < 65536) }
{
    get_u16(b, 1040)
}

pub fn put_system(b: &mut [u8], n: u32)
    requires { (2048 ≤ length b.old) × (n < 65536) }
    ensures { b.new ≡ put_system b.old n }
{
    put_u16(b, 1040, n);
}

pub fn directory_files(b: &[u8]) -> u32
    requires { 2048 ≤ length b.now }
    ensures { (result ≡ directory_of b.now) × (result < 65536) }
{
    get_u16(b, 1042)
}

pub fn put_directory(b: &mut [u8], n: u32)
    requires { (2048 ≤ length b.old) × (n < 65536) }
    ensures { b.new ≡ put_directory b.old n }
{
    put_u16(b, 1042, n);
}

// The date of the latest update.
pub fn put_latest(b: &mut [u8], date: &[u8])
    requires { (2048 ≤ length b.old) × (length date.now ≡ 6) }
    ensures { b.new ≡ put_latest b.old date.now }
{
    copy(b, 1044, date);
}

// The first free index table.
pub fn first_free(b: &[u8]) -> Index
    requires { 2048 ≤ length b.now }
    ensures { result.0 ≡ first_free_of b.now }
{
    Index(get_u32(b, 1050))
}

pub fn put_first_free(b: &mut [u8], i: Index)
    requires { 2048 ≤ length b.old }
    ensures { b.new ≡ put_first_free b.old i.0 }
{
    put_u32(b, 1050, i.0);
}

// The volume flag: 1 while the volume is mounted.
pub fn flag(b: &[u8]) -> u32
    requires { 2048 ≤ length b.now }
    ensures { (result ≡ flag_of b.now) × (result < 65536) }
{
    get_u16(b, 1054)
}

pub fn put_flag(b: &mut [u8], n: u32)
    requires { (2048 ≤ length b.old) × (n < 65536) }
    ensures { b.new ≡ put_flag b.old n }
{
    put_u16(b, 1054, n);
}
