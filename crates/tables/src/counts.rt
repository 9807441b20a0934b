// Counts per zone type: how many blocks of each type a new fixed file takes.
ghost use Rattle.std.specs.Prelude.{◌≡◌, ◌≤◌, ◌<◌};
ghost use Rattle.tables.specs.Blocks.{DataType};
ghost use Rattle.tables.specs.Counts.{types_of, chosen_types, weight_of, block_bytes, Shared, Countable, counts_of};

use crate::blocks::block_sectors;
use crate::sizes::SECTOR;

// The weights of all six types.
const ALL: u32 = 252;

// A type's count, and the bytes that are left to the smaller types.
#[derive(Clone, Copy)]
struct Share {
    count: u32,
    rest: u32,
}

// The types of a flag byte from 0 on.
fn types_of(n: u32) -> Option<u32>
    ensures { result ≡ types_of n }
{
    if n == 0 {
        return Some(ALL);
    }
    if n % 4 != 0 {
        return None;
    }
    if n > ALL {
        return None;
    }
    Some(n)
}

// The zone types that a flag byte chooses, as the sum of their weights; none where it is not allowed.
pub fn chosen_types(flag: i32) -> Option<u32>
    ensures { result ≡ chosen_types flag }
{
    if flag == -1 {
        return Some(ALL);
    }
    if flag < 0 {
        return None;
    }
    types_of(flag as u32)
}

// The weight of type t in a flag byte.
fn type_weight(t: u32) -> u32
    requires { DataType t }
    ensures { (result ≡ weight_of t) × (0 < result) }
{
    1 << (t - 1)
}

// The bytes of a block of type t.
fn block_bytes(t: u32) -> u32
    requires { DataType t }
    ensures { (result ≡ block_bytes t) × (0 < result) × (result ≤ 1048576) }
{
    SECTOR * block_sectors(t)
}

// One step: the blocks of type t for `rest` bytes, rounded up if no smaller type is chosen.
fn share_of(flag: u32, t: u32, rest: u32) -> Share
    requires { DataType t × (rest ≤ 2147483647) }
    ensures { Shared flag t rest result.count result.rest }
{
    let w = type_weight(t);
    if flag / w % 2 != 1 {
        return Share { count: 0, rest };
    }
    let bytes = block_bytes(t);
    if flag % w != 0 {
        return Share {
            count: rest / bytes,
            rest: rest % bytes,
        };
    }
    Share {
        count: (rest + (bytes - 1)) / bytes,
        rest: rest % bytes,
    }
}

// The blocks of each type, H first, C last, for a file of `size` bytes.
pub fn counts(flag: u32, size: u32) -> [u32; 6]
    requires { Countable flag size }
    ensures { result ≡ counts_of flag size }
{
    let mut c = [0u32; 6];
    let mut rest = size;
    for i in 0..6 {
        let s = share_of(flag, 8 - i as u32, rest);
        c[i] = s.count;
        rest = s.rest;
    }
    c
}
