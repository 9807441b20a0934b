// Rule R6: used pointers come first, and each is a lawful run; a parent has one, and a header pointer that is
// zero or a run of 1 to 32 sectors within one zone of type B.
ghost use Rattle.std.specs.Prelude.{◌≡◌, ◌+◌, ◌-◌, ◌*◌, ◌%◌, ◌≤◌, ◌<◌, length};
ghost use Rattle.field.specs.Says.{Says};
ghost use Rattle.tables.specs.Kinds.{zone_of, first_of};
ghost use Rattle.tables.specs.Blocks.{Block, Whole};
ghost use Rattle.examination.specs.Findings.{Finds};
ghost use Rattle.tables.specs.Views.{books_view, cov};
ghost use Rattle.tables.specs.Rules.R6.{Run, HeaderRun, HeaderLaw, PointerLaw};
ghost use Rattle.examination.specs.ZoneParts.{Inside, Lone, Meets, Edge, Part, Parts};
ghost use Rattle.examination.specs.Slots.{SlotsLaw, Heads};

use field::parts::bytes_all;
use tables::blocks::{HEADER_TYPE, block_sectors, is_data_type};
use tables::books::Books;
use tables::entry::decode;
use tables::index;
use tables::index::Pointer;
use tables::kind::is_parent;
use tables::kinds::{Index, Sector, Zone, first_sector, zone_of};
use tables::sizes::ZONE;
use tables::zone::zone_entry;

// The most sectors of a header.
const HEADER_MOST: u32 = 32;

// Does a run from `start` on begin at an edge of the zone's blocks, or before the zone? The zone begins at an edge, so no sector is counted
// from its first one.
fn head_whole(start: Sector, first: Sector, size: u32) -> bool
    requires block { Block size }
    requires first_value { first.0 % 1024 ≡ 0 }
    ensures { Says result ((start.0 - first.0) % size ≡ 0) }
{
    start <= first || start.0 % size == 0
}

// Does a run that ends before sector `end` end at such an edge, or after the zone?
fn tail_whole(end: Sector, first: Sector, size: u32) -> bool
    requires block { Block size }
    requires first_value { first.0 % 1024 ≡ 0 }
    requires first_lt_end { (first.0 < end.0) × (end.0 ≤ 262144) }
    ensures { Says result (Edge end.0 first.0 size) }
{
    first.0 + ZONE <= end.0 || end.0 % size == 0
}

// Is the run's part in the zone from `first` on made of whole blocks?
fn edges_whole(q: Pointer, first: Sector, size: u32) -> bool
    requires block { Block size }
    requires first_value { first.0 % 1024 ≡ 0 }
    requires meets { Meets q.start.0 q.count first.0 }
    requires count_bound { q.start.0 + q.count ≤ 262144 }
    ensures { Says result (Whole (cov q.start.0 q.count) first.0 size) }
{
    head_whole(q.start, first, size) && tail_whole(Sector(q.start.0 + q.count), first, size)
}

// Is the run's part in zone z lawful?
fn part_valid(b: &Books<'_>, q: Pointer, z: Zone) -> bool
    requires inside { Inside b.now.places.zones q.start.0 q.count }
    requires meets { Meets q.start.0 q.count (first_of z.0) }
    ensures { Says result (Part (books_view b.now) q.start.0 q.count z.0) }
{
    let t = zone_entry(b, z).ztype;
    is_data_type(t) && edges_whole(q, first_sector(z), block_sectors(t))
}

// Is a run within one zone made of whole blocks?
fn lone_whole(q: Pointer, size: u32) -> bool
    requires block { Block size }
    requires lone { Lone q.start.0 q.count }
    ensures { Says result (Whole (cov q.start.0 q.count) (first_of (zone_of q.start.0)) size) }
{
    q.start.0 % size == 0 && q.count % size == 0
}

// Is a run within one zone lawful there? Most runs are such.
fn lone_valid(b: &Books<'_>, q: Pointer) -> bool
    requires inside { Inside b.now.places.zones q.start.0 q.count }
    requires lone { Lone q.start.0 q.count }
    ensures { Says result (Part (books_view b.now) q.start.0 q.count (zone_of q.start.0)) }
{
    let t = zone_entry(b, zone_of(q.start)).ztype;
    is_data_type(t) && lone_whole(q, block_sectors(t))
}

// Is its part in each zone that it meets?
fn parts_valid(b: &Books<'_>, q: Pointer) -> bool
    requires inside { Inside b.now.places.zones q.start.0 q.count }
    ensures { Says result (Parts (books_view b.now) q.start.0 q.count) }
{
    let end = zone_of(Sector(q.start.0 + q.count - 1)).0 + 1;
    (zone_of(q.start).0..end).all(|z| part_valid(b, q, Zone(z)))
}

// Is the run lawful?
fn run_valid(b: &Books<'_>, q: Pointer) -> bool
    ensures { Says result (Run (books_view b.now) q.start.0 q.count) }
{
    if q.count < 1 {
        return false;
    }
    if q.count > 32767 {
        return false;
    }
    if q.start.0 < ZONE {
        return false;
    }
    let end = ZONE * (b.places.zones - 1);
    if q.start.0 > end {
        return false;
    }
    if q.start.0 + q.count > end {
        return false;
    }
    if zone_of(Sector(q.start.0 + q.count - 1)).0 == zone_of(q.start).0 {
        return lone_valid(b, q);
    }
    parts_valid(b, q)
}

// Are a pointer's six bytes all zero?
pub fn unused(q: Pointer) -> bool
    ensures { Says result (q.start.0 + q.count ≡ 0) }
{
    q.start.0 == 0 && q.count == 0
}

// Do the used ones of the n pointers from byte `at` of the table on come first, and are they lawful?
fn slots_valid(b: &Books<'_>, t: &[u8], at: usize, n: usize) -> bool
    requires t_len { length t.now ≡ 128 }
    requires n_bound { at + 6 * n ≤ 124 }
    ensures { Says result (SlotsLaw (books_view b.now) t.now at n) }
{
    for j in 0..n {
        let q = index::pointer_at(t, at + index::POINTER * j);
        if unused(q) {
            return bytes_all(t, at + index::POINTER * j, index::POINTER * (n - j), 0);
        }
        if !run_valid(b, q) {
            return false;
        }
    }
    true
}

// Is a header's run lawful?
fn header_run_valid(b: &Books<'_>, q: Pointer) -> bool
    ensures { Says result (HeaderRun (books_view b.now) q.start.0 q.count) }
{
    if q.count < 1 {
        return false;
    }
    if q.count > HEADER_MOST {
        return false;
    }
    if q.start.0 < ZONE {
        return false;
    }
    let end = ZONE * (b.places.zones - 1);
    if q.start.0 > end {
        return false;
    }
    if q.start.0 + q.count > end {
        return false;
    }
    let z = zone_of(q.start);
    if zone_of(Sector(q.start.0 + (q.count - 1))).0 != z.0 {
        return false;
    }
    zone_entry(b, z).ztype == HEADER_TYPE
}

// Is a parent's header pointer zero, or a lawful run?
fn header_valid(b: &Books<'_>, t: &[u8]) -> bool
    requires t_len { length t.now ≡ 128 }
    ensures { Says result (HeaderLaw (books_view b.now) t.now) }
{
    let q = index::pointer_at(t, index::HEADER);
    unused(q) || header_run_valid(b, q)
}

// Has a parent a first pointer, and a lawful header pointer?
fn heads_valid(b: &Books<'_>, t: &[u8]) -> bool
    requires t_len { length t.now ≡ 128 }
    ensures { Says result (Heads (books_view b.now) t.now) }
{
    !unused(index::pointer_at(t, index::PARENT_POINTERS)) && header_valid(b, t)
}

// Are the pointers of index table i lawful?
fn table_valid(b: &Books<'_>, i: Index) -> bool
    requires le_i { (1 ≤ i.0) × (i.0 ≤ b.now.places.indexes) }
    ensures { Says result (PointerLaw (books_view b.now) i.0) }
{
    let t = index::table(b, i);
    let at = index::base(i, t);
    let n = index::slots(i, t);
    slots_valid(b, t, at, n) && (!is_parent(decode(b, i)) || heads_valid(b, t))
}

pub fn rule6(b: &Books<'_>) -> Option<u32>
    ensures { Finds (PointerLaw (books_view b.now)) 1 (b.now.places.indexes + 1) result }
{
    (1..b.places.indexes + 1).find(|i| !table_valid(b, Index(*i)))
}
