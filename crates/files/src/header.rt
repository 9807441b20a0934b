// A file's header in the books: its run taken and pointed at, and the run of the header before it given back.
ghost use Rattle.std.specs.Prelude.{◌≡◌, ◌≤◌, ◌<◌, length};
ghost use Rattle.tables.specs.Lawful.{LawfulSome};
ghost use Rattle.tables.specs.Places.{Layout};
ghost use Rattle.tables.specs.Views.{view_of, Parent};
ghost use Rattle.allocation.specs.Headers.{header_place};
ghost use Rattle.files.specs.Asked.{Recountable};
ghost use Rattle.files.specs.Headers.{free_run, headed};

use crate::zones::recounted;
use allocation::choice::Found;
use allocation::header::{put_run, run_start};
use tables::books::Books;
use tables::index::{HEADER, Pointer, pointer_at, put_pointer, table};
use tables::kinds::{Index, zone_of};
use tables::places::Places;
use tables::sector::put_sectors;
use tables::zone::{put_zone, zone_entry};

// Frees the sectors under a header pointer, and counts them in their zone's entry; a zone left empty has no type.
fn free_run(b: &mut [u8], p: Places, q: Pointer)
    requires layout { Layout p (length b.old) }
    requires recountable { 0 < q.count → Recountable (view_of p b.old) q.start.0 q.count }
    ensures { b.new ≡ free_run p b.old q.start.0 q.count }
{
    if q.count == 0 {
        return;
    }
    put_sectors(b, p, q.start, q.count, 0);
    let z = zone_of(q.start);
    let e = recounted(zone_entry(&Books { raw: b, places: p }, z), q.count);
    put_zone(b, p, z, e.ztype, e.free, e.third);
}

// Gives file f a header of n sectors at k, and frees those of the header that it has: "A replaced header gets its new place first".
pub fn head_file(b: &mut [u8], p: Places, f: Index, n: u32, k: Found)
    requires layout { Layout p (length b.old) }
    requires lawful_some { LawfulSome p b.old }
    requires parent { Parent (view_of p b.old) f.0 }
    requires le_n { (1 ≤ n) × (n ≤ 32) }
    requires k_value { (k ≡ header_place (view_of p b.old) n) × (k.zone.0 < p.zones) }
    ensures { b.new ≡ headed p b.old f.0 n }
{
    let old = pointer_at(table(&Books { raw: b, places: p }, f), HEADER);
    put_run(b, p, n, k);
    let new = Pointer {
        start: run_start(k),
        count: n,
    };
    put_pointer(b, p, f, HEADER, new);
    free_run(b, p, old);
}
