// What is asked of a decoded table entry's kind.
ghost use Rattle.std.specs.Prelude.{◌≡◌};
ghost use Rattle.tables.specs.Entries.{is_free, is_parent, is_variable, is_child};

use crate::entry::{Entry, Kind, Size};

pub fn is_free(e: Entry) -> bool
    ensures { result ≡ is_free e.kind }
{
    matches!(e.kind, Kind::Free)
}

pub fn is_parent(e: Entry) -> bool
    ensures { result ≡ is_parent e.kind }
{
    matches!(e.kind, Kind::Parent(_))
}

// Is it a parent of variable size?
pub fn is_variable(e: Entry) -> bool
    ensures { result ≡ is_variable e.kind }
{
    matches!(e.kind, Kind::Parent(Size::Variable))
}

pub fn is_child(e: Entry) -> bool
    ensures { result ≡ is_child e.kind }
{
    matches!(e.kind, Kind::Child(_))
}
