// A decoded table entry: free, a parent with its fixed or variable kind, or a child.
ghost use Rattle.std.specs.Prelude.{◌≡◌, ◌≤◌, length};
ghost use Rattle.tables.specs.Indexes.{table_at};
ghost use Rattle.tables.specs.Entries.{size_of, kind_of, entry_of};

use crate::books::Books;
use crate::index;
use crate::kinds::Index;

// Attribute weight 16: the file grows.
#[derive(Clone, Copy, PartialEq, Eq)]
pub enum Size {
    Fixed,
    Variable,
}

// Broken: it begins with none of the three words that rule R4 allows.
#[derive(Clone, Copy, PartialEq, Eq)]
pub enum Kind {
    Free,
    Parent(Size),
    Child(Index),
    Broken,
}

#[derive(Clone, Copy)]
pub struct Entry {
    pub kind: Kind,
    pub attribute: u32,
}

fn size_of(attribute: u32) -> Size
    ensures { result ≡ size_of attribute }
{
    if attribute / index::VARIABLE % 2 == 1 {
        return Size::Variable;
    }
    Size::Fixed
}

fn kind_of(i: Index, word: u32, parent: Index, attribute: u32) -> Kind
    requires { (1 ≤ i.0) × (i.0 ≤ 4096) }
    ensures { result ≡ kind_of i.0 word parent.0 attribute }
{
    if word == 0 {
        return Kind::Free;
    }
    if word == i.0 {
        return Kind::Parent(size_of(attribute));
    }
    if word == index::minus(i) {
        return Kind::Child(parent);
    }
    Kind::Broken
}

// What the table t of number i is.
fn entry_of(i: Index, t: &[u8]) -> Entry
    requires le_i { (1 ≤ i.0) × (i.0 ≤ 4096) }
    requires t_len { length t.now ≡ 128 }
    ensures { result ≡ entry_of i.0 t.now }
{
    let attribute = index::attribute(t);
    Entry {
        kind: kind_of(i, index::first_word(t), index::parent(t), attribute),
        attribute,
    }
}

// Index table i of the books, decoded.
pub fn decode(b: &Books<'_>, i: Index) -> Entry
    requires le_i { (1 ≤ i.0) × (i.0 ≤ b.now.places.indexes) }
    ensures { result ≡ entry_of i.0 (table_at b.now.places b.now.raw.now i.0) }
{
    entry_of(i, index::table(b, i))
}
