// Search: the ids of the active files whose names match a pattern.
ghost use Rattle.std.specs.Prelude.{◌≡◌, cond, ◌+◌, ◌≤◌, ◌<◌, length, set};
ghost use Rattle.field.specs.Says.{Says};
ghost use Rattle.patterns.specs.Pattern.{matches};
ghost use Rattle.tables.specs.Indexes.{name_of};
ghost use Rattle.tables.specs.Views.{books_view};
ghost use Rattle.requests.specs.Search.{is_match, filled_with, PatternAllowed, Searched, before_null};
ghost use Rattle.requests.specs.Active.{passing};

use crate::active::is_active;
use crate::argument::check_argument;
use patterns::pattern::name_matches;
use tables::books::Books;
use tables::index::{name, table};
use tables::kinds::Index;
use tables::name::text_length;
use tables::places::read_places;
use tables::refusal::Refusal;

// Has the pattern 1 to 24 bytes, none of them null?
fn pattern_allowed(pattern: &[u8]) -> bool
    ensures { Says result (PatternAllowed pattern.now) }
{
    if pattern.len() < 1 {
        return false;
    }
    if pattern.len() > 24 {
        return false;
    }
    text_length(pattern) == pattern.len()
}

// Does the pattern match the name in table t?
fn text_matches(t: &[u8], pattern: &[u8]) -> bool
    requires { length t.now ≡ 128 }
    ensures { result ≡ matches pattern.now (before_null (name_of t.now)) }
{
    let field = name(t);
    let n = text_length(field);
    name_matches(pattern, &field[..n])
}

// Is table i an active file's parent whose name matches?
fn is_match(b: &Books<'_>, pattern: &[u8], i: Index) -> bool
    requires le_i { (1 ≤ i.0) × (i.0 ≤ b.now.places.indexes) }
    ensures { result ≡ is_match (books_view b.now) pattern.now i.0 }
{
    if !is_active(b, i) {
        return false;
    }
    text_matches(table(b, i), pattern)
}

// Table i as the n-th id where it matches, stored where the lent list holds so many; how many there are then.
fn add_match(b: &Books<'_>, pattern: &[u8], i: Index, ids: &mut [u32], n: usize) -> usize
    requires le_i { (1 ≤ i.0) × (i.0 ≤ b.now.places.indexes) }
    requires n_lt_i { n < i.0 }
    ensures { (result ≡ cond (is_match (books_view b.now) pattern.now i.0) (n + 1) n) × (ids.new ≡ cond (is_match (books_view b.now) pattern.now i.0) (set ids.old n i.0) ids.old) }
{
    if !is_match(b, pattern, i) {
        return n;
    }
    if n >= ids.len() {
        return n + 1;
    }
    ids[n] = i.0;
    n + 1
}

// Lists the ids, as many as the lent list holds, and counts them all.
fn find_files(b: &Books<'_>, pattern: &[u8], ids: &mut [u32]) -> u32
    ensures { (result ≡ length (passing (is_match (books_view b.now) pattern.now) b.now.places.indexes)) × (ids.new ≡ filled_with ids.old (passing (is_match (books_view b.now) pattern.now) b.now.places.indexes)) }
{
    let mut n: usize = 0;
    for i in 1..b.places.indexes + 1 {
        n = add_match(b, pattern, Index(i), ids, n);
    }
    n as u32
}

pub fn search(b: &[u8], withheld: &[u32], pattern: &[u8], ids: &mut [u32]) -> Result<u32, Refusal>
    ensures { Searched b.now withheld.now pattern.now ids.old result ids.new }
{
    check_argument(b, withheld, pattern_allowed(pattern))?;
    let p = read_places(b);
    Ok(find_files(&Books { raw: b, places: p }, pattern, ids))
}
