// Which index tables are active files' parents: what search and list go through.
ghost use Rattle.std.specs.Prelude.{◌≡◌, ◌≤◌, length};
ghost use Rattle.tables.specs.Views.{books_view};
ghost use Rattle.requests.specs.Active.{is_active};

use tables::books::Books;
use tables::entry::decode;
use tables::kind::is_parent;
use tables::kinds::Index;

// Is table i an active file's parent?
pub fn is_active(b: &Books<'_>, i: Index) -> bool
    requires le_i { (1 ≤ i.0) × (i.0 ≤ b.now.places.indexes) }
    ensures { result ≡ is_active (books_view b.now) i.0 }
{
    let e = decode(b, i);
    if !is_parent(e) {
        return false;
    }
    e.attribute % 2 == 0
}
