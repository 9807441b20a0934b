// Are the blocks of a zone whole: each of one bit throughout? Blocks of 16 sectors or more are tested a byte at a time, and blocks of
// four sectors two at a time.
ghost use Rattle.std.specs.Prelude.{◌≡◌, ◌+◌, ◌%◌, length};
ghost use Rattle.field.specs.Says.{Says};
ghost use Rattle.field.specs.Bits.{bit_at};
ghost use Rattle.field.specs.Runs.{Room, AllBits};
ghost use Rattle.tables.specs.Blocks.{Block, Whole};

use field::bits::get_bit;
use field::numbers::wide;
use field::runs::bits_all;
use tables::kinds::Sector;
use tables::sizes::{ZONE, ZONE_BITS};

// The bytes of a zone's bits.
const BYTES: u32 = ZONE_BITS as u32;

// Are the bits of a block all as its first?
fn block_whole(s: &[u8], base: usize, at: Sector, size: u32) -> bool
    requires room { Room (length s.now) base at.0 size }
    requires block { Block size }
    ensures { Says result (AllBits s.now base at.0 size (bit_at s.now base at.0)) }
{
    let from = at.0 as usize;
    let v = get_bit(s, base, from);
    bits_all(s, base, from, size as usize, v)
}

// A block after the other.
fn each_whole(s: &[u8], base: usize, from: Sector, size: u32) -> bool
    requires room { Room (length s.now) base from.0 1024 }
    requires block { Block size }
    ensures { Says result (Whole (bit_at s.now base) from.0 size) }
{
    (0..ZONE / size).all(|i| block_whole(s, base, Sector(from.0 + i * size), size))
}

// Are the first four bits of a byte the same, and the last four: is it 0, 15, 240 or 255?
fn two_whole(s: &[u8], base: usize, at: Sector) -> bool
    requires room { Room (length s.now) base at.0 8 }
    requires at_value { at.0 % 8 ≡ 0 }
    ensures { Says result (AllBits s.now base at.0 4 (bit_at s.now base at.0) × AllBits s.now base (at.0 + 4) 4 (bit_at s.now base (at.0 + 4))) }
{
    let x = wide(s[base + at.0 as usize / 8]);
    240 * (x / 128) + 15 * (x / 8 % 2) == x
}

// Blocks of four sectors, two of them a byte.
fn fours_whole(s: &[u8], base: usize, from: Sector) -> bool
    requires room { Room (length s.now) base from.0 1024 }
    requires from_value { from.0 % 8 ≡ 0 }
    ensures { Says result (Whole (bit_at s.now base) from.0 4) }
{
    (0..BYTES).all(|i| two_whole(s, base, Sector(from.0 + 8 * i)))
}

// Blocks of `size` sectors, of the zone whose first sector is `from`.
pub fn blocks_whole(s: &[u8], base: usize, from: Sector, size: u32) -> bool
    requires room { Room (length s.now) base from.0 1024 }
    requires from_value { from.0 % 8 ≡ 0 }
    requires block { Block size }
    ensures { Says result (Whole (bit_at s.now base) from.0 size) }
{
    if size == 1 {
        return true;
    }
    if size == 4 {
        return fours_whole(s, base, from);
    }
    each_whole(s, base, from, size)
}
