// Rule R5 place by place: the lowest table that fails it. A pass over all chains notes by which parent each child was met, and that it was
// met twice; it stops at one that was met twice already, so it is linear, whatever circles and shared chains the links make.
ghost use Rattle.std.specs.Prelude.{◌≡◌, ◌⊎◌, ◌≢◌, ◌+◌, ◌-◌, ◌≤◌, length};
ghost use Rattle.field.specs.Says.{Says};
ghost use Rattle.tables.specs.Views.{books_view, Parent, Child, next};
ghost use Rattle.examination.specs.Findings.{Finds};
ghost use Rattle.examination.specs.Chained.{ChildLaw, LinkLaw, ChainLaw};
ghost use Rattle.examination.specs.Meetings.{MetUpTo, after_meeting};

use crate::children::{child_number, is_full, next_of, some_used};
use crate::sizes::MARKS;
use tables::books::Books;
use tables::entry::decode;
use tables::index;
use tables::kind::{is_child, is_parent};
use tables::kinds::Index;

// Noted of a child that was met twice: more than any parent's number. A note is a word, because the table of them lies on the stack, where enums
// with a number beside would take twice as much.
const TWICE: u32 = 4097;

// What is noted of a child when it is met in the chain of parent `of`.
fn after_meeting(noted: u32, of: Index) -> u32
    ensures { result ≡ after_meeting noted of.0 }
{
    if noted == 0 {
        return of.0;
    }
    TWICE
}

// Notes the children of parent `of`.
fn meet_chain(b: &Books<'_>, of: Index, met: &mut [u32])
    requires parent { Parent (books_view b.now) of.0 }
    requires met_up_to { MetUpTo (books_view b.now) met.old (of.0 - 1) }
    ensures { MetUpTo (books_view b.now) met.new of.0 }
{
    let mut at = next_of(b, of);
    // The loop follows links, so it has no range to go over.
    while child_number(b, at) {
        let k = at.0 as usize;
        if met[k] == TWICE {
            return;
        }
        met[k] = after_meeting(met[k], of);
        at = next_of(b, at);
    }
}

// Notes the children of table i, if it is a parent.
fn meet_children(b: &Books<'_>, i: Index, met: &mut [u32])
    requires le_i { (1 ≤ i.0) × (i.0 ≤ b.now.places.indexes) }
    requires met_up_to { MetUpTo (books_view b.now) met.old (i.0 - 1) }
    ensures { MetUpTo (books_view b.now) met.new i.0 }
{
    if !is_parent(decode(b, i)) {
        return;
    }
    meet_chain(b, i, met);
}

// Does table i, if it is a child, stand in one chain, name its parent, and have a pointer?
fn child_valid(b: &Books<'_>, met: &[u32], i: Index) -> bool
    requires le_i { (1 ≤ i.0) × (i.0 ≤ b.now.places.indexes) }
    requires met_up_to { MetUpTo (books_view b.now) met.now b.now.places.indexes }
    ensures { Says result (Child (books_view b.now) i.0 → ChildLaw (books_view b.now) i.0) }
{
    if !child_number(b, i) {
        return true;
    }
    let t = index::table(b, i);
    let of = met[i.0 as usize];
    of != 0 && of != TWICE && index::parent(t).0 == of && some_used(i, t)
}

// Is table i a parent or a child?
fn in_chain(b: &Books<'_>, i: Index) -> bool
    requires le_i { (1 ≤ i.0) × (i.0 ≤ b.now.places.indexes) }
    ensures { Says result ((Parent (books_view b.now) i.0) ⊎ (Child (books_view b.now) i.0)) }
{
    let e = decode(b, i);
    is_parent(e) || is_child(e)
}

// If table i is a parent or a child and has a link, does it lead to a child, and is the table full?
fn link_valid(b: &Books<'_>, i: Index) -> bool
    requires le_i { (1 ≤ i.0) × (i.0 ≤ b.now.places.indexes) }
    ensures { Says result ((Parent (books_view b.now) i.0) ⊎ (Child (books_view b.now) i.0) → next (books_view b.now) i.0 ≢ 0 → LinkLaw (books_view b.now) i.0) }
{
    if !in_chain(b, i) {
        return true;
    }
    let at = next_of(b, i);
    at.0 == 0 || (child_number(b, at) && is_full(b, i))
}

fn chain_valid(b: &Books<'_>, met: &[u32], i: Index) -> bool
    requires le_i { (1 ≤ i.0) × (i.0 ≤ b.now.places.indexes) }
    requires met_up_to { MetUpTo (books_view b.now) met.now b.now.places.indexes }
    ensures { Says result (ChainLaw (books_view b.now) i.0) }
{
    child_valid(b, met, i) && link_valid(b, i)
}

// The lowest table that fails, once all chains have been passed.
fn first_unchained(b: &Books<'_>, met: &[u32]) -> Option<u32>
    requires met_up_to { MetUpTo (books_view b.now) met.now b.now.places.indexes }
    ensures { Finds (ChainLaw (books_view b.now)) 1 (b.now.places.indexes + 1) result }
{
    (1..b.places.indexes + 1).find(|i| !chain_valid(b, met, Index(*i)))
}

// R5, or the lowest table that breaks it.
pub fn rule5_place(b: &Books<'_>) -> Option<u32>
    ensures { Finds (ChainLaw (books_view b.now)) 1 (b.now.places.indexes + 1) result }
{
    let mut met = [0u32; MARKS];
    for i in 1..b.places.indexes + 1 {
        meet_children(b, Index(i), &mut met);
    }
    first_unchained(b, &met)
}
