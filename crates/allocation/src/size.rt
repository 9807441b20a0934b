// A file's sectors, and the blocks that it lacks for a length.
ghost use Rattle.std.specs.Prelude.{◌≡◌, ◌≤◌, ◌<◌, length};
ghost use Rattle.tables.specs.Indexes.{table_at};
ghost use Rattle.tables.specs.Views.{books_view, Parent};
ghost use Rattle.tables.specs.Rules.R6.{R6};
ghost use Rattle.tables.specs.Rules.R8.{file_sectors};
ghost use Rattle.allocation.specs.MadeFiles.{own_sectors, blocks_for};

use tables::blocks::block_sectors;
use tables::books::Books;
use tables::extent::{file_type, sectors_of};
use tables::index::{file, table};
use tables::kinds::Index;
use tables::sizes::SECTOR;

// A sector's bytes, as wide as sums over a file are.
const SECTOR_BYTES: u64 = SECTOR as u64;

// The sectors of file f that table i has.
fn own_sectors(b: &Books<'_>, f: Index, i: Index) -> u64
    requires le_i { (1 ≤ i.0) × (i.0 ≤ b.now.places.indexes) }
    ensures { (result ≡ own_sectors f.0 i.0 (table_at b.now.places b.now.raw.now i.0)) × (result < 4294967296) }
{
    let t = table(b, i);
    if file(i, t) != f {
        return 0;
    }
    sectors_of(i, t) as u64
}

// The sectors of file f.
pub fn file_sectors(b: &Books<'_>, f: Index) -> u64
    ensures { (result ≡ file_sectors (books_view b.now) f.0) × (result < 17592186044416) }
{
    let mut n: u64 = 0;
    for i in 0..b.places.indexes {
        n += own_sectors(b, f, Index(i + 1));
    }
    n
}

// The blocks of its type that file f lacks for so many bytes.
pub fn blocks_for(b: &Books<'_>, f: Index, long: u32) -> u32
    requires r6 { R6 (books_view b.now) }
    requires parent { Parent (books_view b.now) f.0 }
    ensures { result ≡ blocks_for (books_view b.now) f.0 long }
{
    let have = SECTOR_BYTES * file_sectors(b, f);
    let wanted = long as u64;
    if wanted <= have {
        return 0;
    }
    let bytes = SECTOR_BYTES * (block_sectors(file_type(b, f)) as u64);
    ((wanted - have + (bytes - 1)) / bytes) as u32
}
