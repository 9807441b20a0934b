// Each file's sectors, summed in one pass over the index tables, in a scratch array by file number.
ghost use Rattle.std.specs.Prelude.{◌+◌, ◌<◌, length};
ghost use Rattle.tables.specs.Views.{books_view};
ghost use Rattle.tables.specs.Rules.R6.{R6};
ghost use Rattle.examination.specs.Surveys.{Summed};

use tables::books::Books;
use tables::extent::sectors_of;
use tables::index;
use tables::kinds::Index;

// Adds the sectors of the table after the first k to its file's.
fn add_sectors(b: &Books<'_>, k: u32, s: &mut [u32])
    requires r6 { R6 (books_view b.now) }
    requires k_lt_indexes { k < b.now.places.indexes }
    requires summed { Summed (books_view b.now) k s.old }
    ensures { Summed (books_view b.now) (k + 1) s.new }
{
    let i = Index(k + 1);
    let t = index::table(b, i);
    let f = index::file(i, t);
    if f.0 < 1 {
        return;
    }
    if f.0 > b.places.indexes {
        return;
    }
    let at = f.0 as usize;
    s[at] = s[at] + sectors_of(i, t);
}

// Sums up the sectors of each file.
pub fn sum_sectors(b: &Books<'_>, s: &mut [u32])
    requires r6 { R6 (books_view b.now) }
    requires summed { Summed (books_view b.now) 0 s.old }
    ensures { Summed (books_view b.now) b.now.places.indexes s.new }
{
    for k in 0..b.places.indexes {
        add_sectors(b, k, s);
    }
}
