// Runs of bits, worked on a whole byte at a time where a run covers one.
ghost use Rattle.std.specs.Prelude.{◌≡◌, ◌*◌, ◌%◌, ◌≤◌, ◌<◌, length};
ghost use Rattle.field.specs.Says.{Says};
ghost use Rattle.field.specs.Runs.{Room, Step, Width, AllBits, SetAhead, set_bits, count_bits};

use crate::bits::{get_bit, put_bit};
use crate::parts::bytes_all;

// How many bits are next worked on at once: a whole byte's, else one.
fn step(at: usize, left: usize) -> usize
    requires { 0 < left }
    ensures { Step at left result }
{
    if at % 8 != 0 {
        return 1;
    }
    if left < 8 {
        return 1;
    }
    8
}

#[tactic(auto, using(crate::proofs::RunLaws::test_whole, crate::proofs::RunLaws::test_one))]
fn test_step(s: &[u8], base: usize, at: usize, w: usize, v: u32) -> bool
    requires room { Room (length s.now) base at w }
    requires width { Width at w }
    requires v_bound { v < 2 }
    ensures { Says result (AllBits s.now base at w v) }
{
    if w == 8 {
        return s[base + at / 8] == (255 * v) as u8;
    }
    get_bit(s, base, at) == v
}

#[tactic(auto, using(crate::proofs::RunLaws::set_whole, crate::proofs::RunLaws::set_one))]
fn set_step(s: &mut [u8], base: usize, at: usize, w: usize, v: u32)
    requires room { Room (length s.old) base at w }
    requires width { Width at w }
    requires v_bound { v < 2 }
    ensures { s.new ≡ set_bits s.old base at w v }
{
    if w == 8 {
        s[base + at / 8] = (255 * v) as u8;
        return;
    }
    put_bit(s, base, at, v);
}

#[tactic(auto, using(crate::proofs::RunLaws::count_whole, crate::proofs::RunLaws::count_single))]
fn count_step(s: &[u8], base: usize, at: usize, w: usize) -> u32
    requires room { Room (length s.now) base at w }
    requires width { Width at w }
    ensures { result ≡ count_bits s.now base at w }
{
    if w == 8 {
        return s[base + at / 8].count_ones();
    }
    get_bit(s, base, at)
}

// Are the `count` bits from `from` on all v? Step by step, wherever the run begins and ends.
fn bits_each(s: &[u8], base: usize, from: usize, count: usize, v: u32) -> bool
    requires room { Room (length s.now) base from count }
    requires v_bound { v < 2 }
    ensures { Says result (AllBits s.now base from count v) }
{
    let mut i: usize = 0;
    // A step passes over a whole byte's bits or over one, so no range has them.
    while i < count {
        let w = step(from + i, count - i);
        if !test_step(s, base, from + i, w, v) {
            return false;
        }
        i += w;
    }
    true
}

// Are the `count` bits from `from` on all v? A run of whole bytes is tested byte by byte.
pub fn bits_all(s: &[u8], base: usize, from: usize, count: usize, v: u32) -> bool
    requires room { Room (length s.now) base from count }
    requires v_bound { v < 2 }
    ensures { Says result (AllBits s.now base from count v) }
{
    if from % 8 + count % 8 != 0 {
        return bits_each(s, base, from, count, v);
    }
    bytes_all(s, base + from / 8, count / 8, (255 * v) as u8)
}

// Are there w bits from `at` on, and all of them set?
fn are_set(s: &[u8], base: usize, at: usize, left: usize, w: usize) -> bool
    requires { Room (length s.now) base at left }
    ensures { Says result ((w ≤ left) × AllBits s.now base at w 1) }
{
    if w > left {
        return false;
    }
    bits_all(s, base, at, w, 1)
}

// How many set bits from `at` on can be passed over at once: eight bytes', a byte's or one; none where bit `at` is clear.
pub fn set_ahead(s: &[u8], base: usize, at: usize, left: usize) -> usize
    requires room { Room (length s.now) base at left }
    requires left_nonzero { 0 < left }
    ensures { SetAhead s.now base at left result }
{
    if get_bit(s, base, at) == 0 {
        return 0;
    }
    if at % 8 != 0 {
        return 1;
    }
    if are_set(s, base, at, left, 64) {
        return 64;
    }
    if are_set(s, base, at, left, 8) {
        return 8;
    }
    1
}

// Sets (v = 1) or clears (v = 0) the `count` bits from `from` on.
pub fn set_bits(s: &mut [u8], base: usize, from: usize, count: usize, v: u32)
    requires room { Room (length s.old) base from count }
    requires v_bound { v < 2 }
    ensures { s.new ≡ set_bits s.old base from count v }
{
    let mut i: usize = 0;
    // A step passes over a whole byte's bits or over one, so no range has them.
    while i < count {
        let w = step(from + i, count - i);
        set_step(s, base, from + i, w, v);
        i += w;
    }
}

// How many of the `count` bits from `from` on are set? Step by step, wherever the run begins and ends.
fn count_each(s: &[u8], base: usize, from: usize, count: usize) -> u32
    requires { Room (length s.now) base from count }
    ensures { (result ≡ count_bits s.now base from count) × (result ≤ count) }
{
    let mut n: u32 = 0;
    let mut i: usize = 0;
    // A step passes over a whole byte's bits or over one, so no range has them.
    while i < count {
        let w = step(from + i, count - i);
        n += count_step(s, base, from + i, w);
        i += w;
    }
    n
}

// How many bits of n whole bytes are set?
fn count_bytes(s: &[u8], base: usize, from: usize, bytes: usize) -> u32
    requires room { Room (length s.now) base from (8 * bytes) }
    requires from_value { from % 8 ≡ 0 }
    ensures { (result ≡ count_bits s.now base from (8 * bytes)) × (result ≤ 8 * bytes) }
{
    let at = base + from / 8;
    s[at..at + bytes].iter().map(|byte| byte.count_ones()).sum()
}

// How many of the `count` bits from `from` on are set? A run of whole bytes is counted byte by byte.
pub fn count_bits(s: &[u8], base: usize, from: usize, count: usize) -> u32
    requires { Room (length s.now) base from count }
    ensures { (result ≡ count_bits s.now base from count) × (result ≤ count) }
{
    if from % 8 + count % 8 != 0 {
        return count_each(s, base, from, count);
    }
    count_bytes(s, base, from, count / 8)
}
