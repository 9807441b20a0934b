// Rule R4: what each index table begins with, the zeros of the free ones, and their chain.
ghost use Rattle.std.specs.Prelude.{◌≡◌, ℕ, ◌+◌, ◌≤◌, length};
ghost use Rattle.field.specs.Says.{Says};
ghost use Rattle.tables.specs.Each.{Each};
ghost use Rattle.examination.specs.Findings.{Finds};
ghost use Rattle.tables.specs.Views.{books_view, Free};
ghost use Rattle.examination.specs.Met.{FreeMet};
ghost use Rattle.tables.specs.Rules.R4.{Own, FreeChain};

use crate::sizes::MARKS;
use field::parts::bytes_all;
use tables::books::Books;
use tables::kinds::Index;
use tables::{index, sector1};

// The zeros of a free table, from its first word to its link.
const ZEROS: usize = index::LINK - index::AFTER_WORD;

// Does table i begin with 0 (then zeros follow), i or -i?
fn own(b: &Books<'_>, i: Index) -> bool
    requires le_i { (1 ≤ i.0) × (i.0 ≤ b.now.places.indexes) }
    ensures { Says result (Own (books_view b.now) i.0) }
{
    let t = index::table(b, i);
    let word = index::first_word(t);
    if word == 0 {
        return bytes_all(t, index::AFTER_WORD, ZEROS, 0);
    }
    word == i.0 || word == 4294967295 - (i.0 - 1)
}

// Each table's own bytes.
pub fn own_bytes(b: &Books<'_>) -> Option<u32>
    ensures { Finds (Own (books_view b.now)) 1 (b.now.places.indexes + 1) result }
{
    (1..b.places.indexes + 1).find(|i| !own(b, Index(*i)))
}

// Is i, read from the books, a free table?
fn index_free(b: &Books<'_>, i: Index) -> bool
    requires le_i { 1 ≤ i.0 }
    ensures { Says result (Free (books_view b.now) i.0) }
{
    i.0 <= b.places.indexes && index::first_word(index::table(b, i)) == 0
}

// Is table i marked, if it is free?
fn free_met(b: &Books<'_>, seen: &[u8], i: Index) -> bool
    requires le_i { (1 ≤ i.0) × (i.0 ≤ b.now.places.indexes) }
    requires seen_len { length seen.now ≡ 4097 }
    ensures { Says result (FreeMet (books_view b.now) seen.now i.0) }
{
    !index_free(b, i) || seen[i.0 as usize] != 0
}

// Is every free table marked?
fn all_free_met(b: &Books<'_>, seen: &[u8]) -> bool
    requires seen_len { length seen.now ≡ 4097 }
    ensures { Says result (Each (FreeMet (books_view b.now) seen.now) 1 (b.now.places.indexes + 1)) }
{
    (1..b.places.indexes + 1).all(|i| free_met(b, seen, Index(i)))
}

// The chain of free tables. A mark is set on each that it meets, so that a circle ends at its first mark.
pub fn free_chain(b: &Books<'_>) -> bool
    ensures { Says result ((m : ℕ) × FreeChain (books_view b.now) m) }
{
    let mut seen = [0u8; MARKS];
    let mut at = sector1::first_free(b.raw);
    // The loop follows links, so it has no range to go over.
    while at.0 != 0 {
        if !index_free(b, at) {
            return false;
        }
        let k = at.0 as usize;
        if seen[k] != 0 {
            return false;
        }
        seen[k] = 1;
        at = index::link(index::table(b, at));
    }
    all_free_met(b, &seen)
}
