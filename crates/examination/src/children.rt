// Rule R5: the chains of the parents, in one walk over all of them.
ghost use Rattle.std.specs.Prelude.{◌≡◌, ◌+◌, ◌≤◌, length};
ghost use Rattle.field.specs.Says.{Says};
ghost use Rattle.tables.specs.Places.{Layout};
ghost use Rattle.tables.specs.Indexes.{link_of};
ghost use Rattle.tables.specs.Each.{Each};
ghost use Rattle.tables.specs.Views.{books_view, view_of, Child};
ghost use Rattle.examination.specs.Met.{SomeUsed, ChildMet, Follows, Before, Starts, Passes};
ghost use Rattle.tables.specs.Rules.R5.{Full, R5};

use crate::pointers::unused;
use crate::sizes::MARKS;
use tables::books::Books;
use tables::entry::decode;
use tables::index;
use tables::kind::{is_child, is_parent};
use tables::kinds::Index;
use tables::places::Places;

// Is table i full of pointers?
pub fn is_full(b: &Books<'_>, i: Index) -> bool
    requires le_i { (1 ≤ i.0) × (i.0 ≤ b.now.places.indexes) }
    ensures { Says result (Full (books_view b.now) i.0) }
{
    let t = index::table(b, i);
    let slots = index::slots(i, t);
    let base = index::base(i, t);
    (0..slots).all(|j| !unused(index::pointer_at(t, base + index::POINTER * j)))
}

// Has table t, of number i, at least one pointer?
pub fn some_used(i: Index, t: &[u8]) -> bool
    requires { length t.now ≡ 128 }
    ensures { Says result (SomeUsed i.0 t.now) }
{
    let slots = index::slots(i, t);
    let base = index::base(i, t);
    (0..slots).any(|j| !unused(index::pointer_at(t, base + index::POINTER * j)))
}

// Is i, read from the books, the number of a child?
pub(crate) fn child_number(b: &Books<'_>, i: Index) -> bool
    ensures { Says result (Child (books_view b.now) i.0) }
{
    1 <= i.0 && i.0 <= b.places.indexes && is_child(decode(b, i))
}

// May `at`, a link that was read, stand after `last` in the chain of parent `of`?
fn follows(b: &Books<'_>, of: Index, last: Index, at: Index) -> bool
    requires le_last { (1 ≤ last.0) × (last.0 ≤ b.now.places.indexes) }
    ensures { Says result (Follows (books_view b.now) of.0 last.0 at.0) }
{
    child_number(b, at) && index::parent(index::table(b, at)) == of && is_full(b, last)
}

// Where table i leads.
pub fn next_of(b: &Books<'_>, i: Index) -> Index
    requires le_i { (1 ≤ i.0) × (i.0 ≤ b.now.places.indexes) }
    ensures { result.0 ≡ link_of ((books_view b.now).table i.0) }
{
    index::link(index::table(b, i))
}

// Marks the children of parent `of`. One that is marked stands in two chains, or twice in this one.
fn mark_chain(b: &Books<'_>, of: Index, seen: &mut [u8]) -> bool
    requires starts { Starts (books_view b.now) seen.old of.0 }
    ensures { Passes result (books_view b.now) seen.new of.0 }
{
    let mut last = of;
    let mut at = next_of(b, of);
    // The loop follows links, so it has no range to go over.
    while at.0 != 0 {
        if !follows(b, of, last, at) {
            return false;
        }
        let k = at.0 as usize;
        if seen[k] != 0 {
            return false;
        }
        seen[k] = 1;
        last = at;
        at = next_of(b, last);
    }
    true
}

// Marks the children of table i, if it is a parent.
fn mark_children(b: &Books<'_>, i: Index, seen: &mut [u8]) -> bool
    requires before { Before (books_view b.now) seen.old i.0 }
    ensures { Passes result (books_view b.now) seen.new i.0 }
{
    if !is_parent(decode(b, i)) {
        return true;
    }
    mark_chain(b, i, seen)
}

// Is table i, if it is a child, marked and not without a pointer?
fn child_met(b: &Books<'_>, seen: &[u8], i: Index) -> bool
    requires le_i { (1 ≤ i.0) × (i.0 ≤ b.now.places.indexes) }
    requires seen_len { length seen.now ≡ 4097 }
    ensures { Says result (ChildMet (books_view b.now) seen.now i.0) }
{
    if !is_child(decode(b, i)) {
        return true;
    }
    seen[i.0 as usize] != 0 && some_used(i, index::table(b, i))
}

// Is every child marked and not without a pointer?
fn all_children_met(b: &Books<'_>, seen: &[u8]) -> bool
    requires seen_len { length seen.now ≡ 4097 }
    ensures { Says result (Each (ChildMet (books_view b.now) seen.now) 1 (b.now.places.indexes + 1)) }
{
    (1..b.places.indexes + 1).all(|i| child_met(b, seen, Index(i)))
}

// Walks every chain once, then looks whether a child was left out.
pub fn rule5(b: &Books<'_>) -> bool
    ensures { Says result (R5 (books_view b.now)) }
{
    let mut seen = [0u8; MARKS];
    for i in 1..b.places.indexes + 1 {
        if !mark_children(b, Index(i), &mut seen) {
            return false;
        }
    }
    all_children_met(b, &seen)
}
