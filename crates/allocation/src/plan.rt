// How many index tables a choice of blocks takes, found out on copies of the zone and the sector table.
ghost use Rattle.std.specs.Prelude.{◌≡◌, length};
ghost use Rattle.tables.specs.Places.{Layout};
ghost use Rattle.allocation.specs.Choice.{in_order};
ghost use Rattle.allocation.specs.Plans.{tables_for};
ghost use Rattle.allocation.specs.Stock.{Plannable};
ghost use Rattle.allocation.specs.Scratch.{scratch_places, scratch_of};

use crate::growth::{Cursor, plan_all};
use crate::tail::Tail;
use field::parts::copy;
use tables::books::Books;
use tables::kinds::Index;
use tables::places::Places;
use tables::sizes::{ENTRY_LEN, ZONE_BITS};

// Where the copies stand.
fn scratch_places(zones: u32) -> Places
    ensures { result ≡ scratch_places zones }
{
    Places {
        zones,
        indexes: 1,
        zonetable: 2048,
        sectortable: 3584,
        indextable: 36352,
    }
}

// The copies of b's tables, made in s.
fn copy_tables(s: &mut [u8], b: &[u8], p: Places)
    requires layout { Layout p (length b.now) }
    requires s_len { length s.old ≡ 36480 }
    ensures { s.new ≡ scratch_of p s.old b.now }
{
    let zones = p.zones as usize;
    let zonetable = p.zonetable;
    let zoneend = zonetable + ENTRY_LEN * zones;
    let sectortable = p.sectortable;
    let sectorend = sectortable + ZONE_BITS * zones;
    copy(s, 2048, &b[zonetable..zoneend]);
    copy(s, 3584, &b[sectortable..sectorend]);
}

// The tables that blocks of these counts take after l.
pub fn tables_for(b: &Books<'_>, l: Tail, counts: [u32; 6]) -> u64
    requires { Plannable b.now.places b.now.raw.now l (in_order counts) }
    ensures { result ≡ tables_for b.now.places b.now.raw.now l (in_order counts) }
{
    let mut s = [0u8; 36480];
    copy_tables(&mut s, b.raw, b.places);
    let none = Index(0);
    let from = Cursor {
        tail: l,
        table: none,
    };
    plan_all(&mut s, scratch_places(b.places.zones), counts, from)
        .tail
        .tables
}
