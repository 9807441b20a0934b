// The place of a header: a run of free sectors in a B zone, and the run taken.
ghost use Rattle.std.specs.Prelude.{◌≡◌, ◌+◌, ◌-◌, ◌≤◌, ◌<◌, length, true, false, MatchOption};
ghost use Rattle.tables.specs.Places.{Layout};
ghost use Rattle.tables.specs.Views.{books_view};
ghost use Rattle.allocation.specs.Find.{NumberFound};
ghost use Rattle.allocation.specs.Headers.{lowest_run, fitting, lowest_fitting, run_place, header_place, run_start, put_run};

use crate::choice::{Found, lowest_open};
use tables::blocks::HEADER_TYPE;
use tables::books::Books;
use tables::kinds::{Sector, Zone, first_sector};
use tables::places::Places;
use tables::room::spare_in;
use tables::sector::{put_sectors, used_ahead};
use tables::sizes::ZONE;
use tables::zone::{put_zone, zone_entry};

// The lowest n free sectors of zone z that follow on each other, by the first one's number in the zone.
// The `free` sectors from `from` on are free; a run that takes in a sector in use isn't, so the search goes on after those in use: steps of
// many lengths, and no range for a `for`.
fn clear_run(b: &Books<'_>, z: Zone, n: u32) -> Option<u32>
    requires le_z { (2 ≤ z.0) × (z.0 < b.now.places.zones) × (1 ≤ n) × (n ≤ 1024) }
    ensures { NumberFound (1025 - n) (lowest_run (books_view b.now) n z.0) result }
{
    let first = first_sector(z).0;
    let mut from: u32 = 0;
    let mut free: u32 = 0;
    while from + n <= ZONE {
        let at = from + free;
        let used = used_ahead(b, Sector(first + at), ZONE - at);
        if used > 0 {
            from = at + used;
            free = 0;
            continue;
        }
        free += 1;
        if free == n {
            return Some(from);
        }
    }
    None
}

// The place in zone z, if that is a B zone that isn't open and has a run of n free sectors.
fn place_in(b: &Books<'_>, n: u32, z: Zone) -> Option<Found>
    requires le_z { (2 ≤ z.0) × (z.0 < b.now.places.zones) × (1 ≤ n) × (n ≤ 1024) }
    ensures { MatchOption result (fitting (books_view b.now) n z.0 ≡ false) (λ k. (fitting (books_view b.now) n z.0 ≡ true) × (k ≡ run_place (books_view b.now) n z.0)) }
{
    let e = zone_entry(b, z);
    if spare_in(HEADER_TYPE, e) == 0 {
        return None;
    }
    let number = clear_run(b, z, n)?;
    Some(Found {
        zone: z,
        number,
        free: e.free.saturating_sub(n),
    })
}

// The place in the lowest such zone.
fn begun_place(b: &Books<'_>, n: u32) -> Option<Found>
    requires le_n { (1 ≤ n) × (n ≤ 1024) }
    ensures { MatchOption result (lowest_fitting (books_view b.now) n ≡ b.now.places.zones) (λ k. (lowest_fitting (books_view b.now) n < b.now.places.zones) × (k ≡ run_place (books_view b.now) n (lowest_fitting (books_view b.now) n))) }
{
    for z in 2..b.places.zones {
        if let Some(k) = place_in(b, n, Zone(z)) {
            return Some(k);
        }
    }
    None
}

// The place of a header of n sectors.
pub fn header_place(b: &Books<'_>, n: u32) -> Option<Found>
    requires le_n { (1 ≤ n) × (n ≤ 32) }
    ensures { MatchOption result (b.now.places.zones ≤ (header_place (books_view b.now) n).zone.0) (λ k. (k ≡ header_place (books_view b.now) n) × (k.zone.0 < b.now.places.zones)) }
{
    if let Some(k) = begun_place(b, n) {
        return Some(k);
    }
    let zone = lowest_open(b)?;
    Some(Found {
        zone,
        number: 0,
        free: ZONE - n,
    })
}

// A run's first sector.
pub fn run_start(k: Found) -> Sector
    requires { (1 ≤ k.zone.0) × (k.zone.0 ≤ 256) × (k.number ≤ 1024) }
    ensures { result.0 ≡ run_start k }
{
    Sector(first_sector(k.zone).0 + k.number)
}

// Takes the n sectors of the place: its zone's entry, and the sectors' bits.
pub fn put_run(b: &mut [u8], p: Places, n: u32, k: Found)
    requires layout { Layout p (length b.old) }
    requires le_zone { (2 ≤ k.zone.0) × (k.zone.0 < p.zones) × (k.number + n ≤ 1024) × (k.free < 65536) }
    ensures { b.new ≡ put_run p b.old n k }
{
    put_zone(b, p, k.zone, HEADER_TYPE, k.free, 0);
    put_sectors(b, p, run_start(k), n, 1);
}
