// R9: sector 1's counts against what the index tables are, in one pass over them.
ghost use Rattle.std.specs.Prelude.{◌≤◌, length};
ghost use Rattle.field.specs.Says.{Says};
ghost use Rattle.tables.specs.Places.{Layout};
ghost use Rattle.tables.specs.Indexes.{table_at};
ghost use Rattle.tables.specs.Views.{books_view};
ghost use Rattle.examination.specs.Counted.{Few, CountsAdded, Tallied};
ghost use Rattle.tables.specs.Rules.R9.{R9};

use tables::books::Books;
use tables::entry::decode;
use tables::kind::{is_free, is_parent};
use tables::kinds::Index;
use tables::places::Places;
use tables::{index, sector1};

// The counts that sector 1 has, made anew.
#[derive(Clone, Copy, Default, PartialEq, Eq)]
pub struct Counts {
    pub active: u32,
    pub deleted: u32,
    pub free: u32,
    pub system: u32,
    pub directory: u32,
}

// c and what table i adds to it.
fn count_table(c: Counts, b: &Books<'_>, i: Index) -> Counts
    requires few { Few c 4095 }
    requires le_i { (1 ≤ i.0) × (i.0 ≤ b.now.places.indexes) }
    ensures { CountsAdded c i.0 (table_at b.now.places b.now.raw.now i.0) result }
{
    let e = decode(b, i);
    if is_free(e) {
        return Counts {
            free: c.free + 1,
            ..c
        };
    }
    if !is_parent(e) {
        return c;
    }
    let attribute = e.attribute;
    if attribute % 2 == 1 {
        return Counts {
            deleted: c.deleted + 1,
            ..c
        };
    }
    Counts {
        active: c.active + 1,
        system: c.system + attribute / index::SYSTEM % 2,
        directory: c.directory + attribute / index::DIRECTORY % 2,
        ..c
    }
}

// What all tables add up to.
fn count_tables(b: &Books<'_>) -> Counts
    ensures { Tallied (books_view b.now) result }
{
    let mut c = Counts::default();
    for k in 0..b.places.indexes {
        c = count_table(c, b, Index(k + 1));
    }
    c
}

// Are sector 1's counts true, and is the flag 0 or 1?
pub fn rule9(b: &Books<'_>) -> bool
    ensures { Says result (R9 (books_view b.now)) }
{
    let stored = Counts {
        active: sector1::active_files(b.raw),
        deleted: sector1::deleted_files(b.raw),
        free: sector1::free_indexes(b.raw),
        system: sector1::system_files(b.raw),
        directory: sector1::directory_files(b.raw),
    };
    stored == count_tables(b) && sector1::flag(b.raw) <= 1
}
