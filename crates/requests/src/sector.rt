// The sectors of a file, from 0.
ghost use Rattle.std.specs.Prelude.{◌≡◌, ◌-◌, ◌*◌, ◌≤◌, ◌<◌};
ghost use Rattle.tables.specs.Books.{GoodSome};
ghost use Rattle.tables.specs.Rules.R8.{file_sectors};
ghost use Rattle.tables.specs.Views.{books_view, Parent};
ghost use Rattle.files.specs.Spots.{kth_sector};

use files::spot::{sector_of, seek};
use tables::books::Books;
use tables::kinds::{Index, Sector};

// The k-th sector of file f, which has one.
pub fn kth_sector(b: &Books<'_>, f: Index, k: u32) -> Sector
    requires good_some { GoodSome b.now.raw.now b.now.places }
    requires parent { Parent (books_view b.now) f.0 }
    requires k_bound { k < file_sectors (books_view b.now) f.0 }
    ensures { (result.0 ≡ kth_sector (books_view b.now) f.0 k) × (1024 ≤ result.0) × (result.0 < 1024 * (b.now.places.zones - 1)) }
{
    sector_of(b, seek(b, f, k))
}
