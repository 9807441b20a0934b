// Format's first step: sectors 0 and 1 of fresh books, what the volume is and that it is empty.
ghost use Rattle.std.specs.Prelude.{◌≡◌, ◌≤◌, length};
ghost use Rattle.tables.specs.Format.{Writable, label_of, put_label, put_identity, put_sizes, put_starts, put_status};

use crate::kinds::Index;
use crate::label::Label;
use crate::sizes::{ENTRY, ROUND_UP, SECTOR, TABLE, ZONE};
use crate::{sector0, sector1};

// The texts, the id and the date.
fn write_label(b: &mut [u8], label: &Label<'_>)
    requires in_bounds { 2048 ≤ length b.old }
    requires writable { Writable (label_of label.now) }
    ensures { b.new ≡ put_label b.old (label_of label.now) }
{
    sector0::put_application(b, label.application);
    sector0::put_volume_name(b, label.volume);
    sector0::put_volume_id(b, label.id);
    sector0::put_owner(b, label.owner);
    sector0::put_owner_code(b, label.code);
    sector0::put_initialized(b, label.date);
}

// The mark "IS&C" and the version "01.0".
fn write_mark(b: &mut [u8])
    requires { 2048 ≤ length b.old }
    ensures { b.new ≡ put_identity b.old }
{
    sector0::put_mark(b, sector0::MARK);
    sector0::put_version(b, sector0::VERSION);
}

fn write_limits(b: &mut [u8], zones: u32)
    requires { 2048 ≤ length b.old }
    ensures { b.new ≡ put_sizes b.old zones }
{
    write_mark(b);
    sector0::put_zones(b, zones);
    sector0::put_sectors_per_zone(b, ZONE);
    sector0::put_bytes_per_sector(b, SECTOR);
    sector0::put_index_size(b, TABLE);
}

// The start sectors of the three tables.
fn write_starts(b: &mut [u8], zones: u32)
    requires in_bounds { 2048 ≤ length b.old }
    requires zones_bound { zones ≤ 256 }
    ensures { b.new ≡ put_starts b.old zones }
{
    let sectorstart = 2 + (ENTRY * zones + ROUND_UP) / SECTOR;
    let indexstart = sectorstart + (zones + 7) / 8;
    sector0::put_zone_start(b, 2);
    sector0::put_sector_start(b, sectorstart);
    sector0::put_index_start(b, indexstart);
}

// Sector 0.
pub fn write_sector0(b: &mut [u8], zones: u32, label: &Label<'_>)
    requires in_bounds { 2048 ≤ length b.old }
    requires zones_bound { zones ≤ 256 }
    requires writable { Writable (label_of label.now) }
    ensures { b.new ≡ put_starts (put_sizes (put_label b.old (label_of label.now)) zones) zones }
{
    write_label(b, label);
    write_limits(b, zones);
    write_starts(b, zones);
}

pub fn write_status(b: &mut [u8], indexes: u32, date: &[u8])
    requires in_bounds { 2048 ≤ length b.old }
    requires date_len { length date.now ≡ 6 }
    ensures { b.new ≡ put_status b.old indexes date.now }
{
    sector1::put_indexes(b, indexes);
    sector1::put_free(b, indexes);
    sector1::put_latest(b, date);
    sector1::put_first_free(b, Index(1));
}
