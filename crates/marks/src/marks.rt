// R7, examined: the run of each pointer and of each header pointer is marked in a table of bits, 64 a word, and the marks are compared with
// the sector table. A run is refused at the first sector that is marked already, so no sector is owned twice.
ghost use Rattle.std.specs.Prelude.{◌≡◌, ◌+◌, ◌-◌, ◌/◌, ◌^◌, ◌≤◌, ◌<◌, length};
ghost use Rattle.field.specs.Says.{Says};
ghost use Rattle.tables.specs.Places.{Layout};
ghost use Rattle.tables.specs.Views.{books_view, cov, over_of, header_over, claims_of, claims_over};
ghost use Rattle.tables.specs.Rules.R6.{R6};
ghost use Rattle.tables.specs.Rules.R7.{Owned};
ghost use Rattle.marks.specs.Marks.{InWord, Piece, Adds, TableFits, Agrees, mark_at, word_at};

use tables::books::Books;
use tables::index;
use tables::index::Pointer;
use tables::kinds::{Index, Sector};
use tables::places::Places;

// The marks of a word, the words of a zone, and the words of 256 zones.
pub const WORD: u32 = 64;

const ZONE_WORDS: usize = 16;

pub const WORDS: usize = 4096;

// How many of the marks that are left stand in the word of mark `at`.
fn in_word(at: Sector, left: u32) -> u32
    requires { 0 < left }
    ensures { Piece at.0 left result }
{
    let room = WORD - at.0 % WORD;
    if left < room {
        return left;
    }
    room
}

// The bits of a word but its k highest, of which there are 64 at most.
fn behind(k: u32) -> u64
    requires { k ≤ 64 }
    ensures { result ≡ 2 ^ (64 - k) - 1 }
{
    u64::MAX.checked_shr(k).unwrap_or(0)
}

// Marks w sectors whose marks stand in one word. The marks are clear if the word from them on is no more than the bits after them can make;
// being clear, they are set by adding.
pub fn mark_piece(m: &mut [u64], at: Sector, w: u32) -> bool
    requires in_word { InWord at.0 w }
    requires at_in_bounds { at.0 / 64 < length m.old }
    ensures { Adds result m.old m.new (cov at.0 w) }
{
    let j = (at.0 / WORD) as usize;
    let k = at.0 % WORD;
    let on = behind(k);
    let rest = behind(k + w);
    let x = m[j];
    let met = x & on;
    if rest < met {
        return false;
    }
    m[j] = x + (on - rest);
    true
}

// Marks the sectors of a run.
pub fn mark_run(m: &mut [u64], q: Pointer) -> bool
    requires m_len { length m.old ≡ 4096 }
    requires count_bound { q.start.0 + q.count ≤ 262144 }
    ensures { Adds result m.old m.new (cov q.start.0 q.count) }
{
    let mut i: u32 = 0;
    // From word to word, by as many marks as stand in the next one: no range has these steps.
    while i < q.count {
        let w = in_word(Sector(q.start.0 + i), q.count - i);
        if !mark_piece(m, Sector(q.start.0 + i), w) {
            return false;
        }
        i += w;
    }
    true
}

// Marks the sectors under the pointers of table i. Used pointers come first, so the first one with no sectors ends them.
fn mark_pointers(i: Index, t: &[u8], m: &mut [u64]) -> bool
    requires { TableFits i.0 t.now (length m.old) }
    ensures { Adds result m.old m.new (over_of i.0 t.now) }
{
    let slots = index::slots(i, t);
    let base = index::base(i, t);
    for j in 0..slots {
        let q = index::pointer_at(t, base + index::POINTER * j);
        if q.count == 0 {
            return true;
        }
        if !mark_run(m, q) {
            return false;
        }
    }
    true
}

// Marks the sectors under the header pointer of table i, if the table is a parent.
fn mark_header_run(i: Index, t: &[u8], m: &mut [u64]) -> bool
    requires { TableFits i.0 t.now (length m.old) }
    ensures { Adds result m.old m.new (header_over i.0 t.now) }
{
    if index::first_word(t) != i.0 {
        return true;
    }
    mark_run(m, index::pointer_at(t, index::HEADER))
}

// Marks the sectors that table i owns.
fn mark_claims(i: Index, t: &[u8], m: &mut [u64]) -> bool
    requires { TableFits i.0 t.now (length m.old) }
    ensures { Adds result m.old m.new (claims_of i.0 t.now) }
{
    mark_pointers(i, t, m) && mark_header_run(i, t, m)
}

// Marks the sectors that any table owns.
fn mark_all(b: &Books<'_>, m: &mut [u64]) -> bool
    requires r6 { R6 (books_view b.now) }
    requires m_len { length m.old ≡ 4096 }
    ensures { Adds result m.old m.new (claims_over (books_view b.now)) }
{
    for k in 0..b.places.indexes {
        let i = Index(k + 1);
        if !mark_claims(i, index::table(b, i), m) {
            return false;
        }
    }
    true
}

// Eight bytes as a word, most significant byte first.
fn word_at(b: &[u8], at: usize) -> u64
    requires { at + 8 ≤ length b.now }
    ensures { result ≡ word_at b.now at }
{
    u64::from_be_bytes([
        b[at],
        b[at + 1],
        b[at + 2],
        b[at + 3],
        b[at + 4],
        b[at + 5],
        b[at + 6],
        b[at + 7],
    ])
}

// Are the marks the sector table's bits, outside zones 1 and Z? It takes the bytes as such: that each is below 256 is known of a slice that is
// passed, and not of a field.
fn agrees(b: &[u8], p: Places, m: &[u64]) -> bool
    requires layout { Layout p (length b.now) }
    requires m_len { length m.now ≡ 4096 }
    ensures { Says result (Agrees p b.now m.now) }
{
    let end = ZONE_WORDS * (p.zones as usize - 1);
    let base = p.sectortable;
    (ZONE_WORDS..end).all(|k| word_at(b, base + 8 * k) == m[k])
}

// Is each sector outside zones 1 and Z marked already or owned once, and not both, exactly if its bit is set?
pub fn owned(b: &Books<'_>, m: &mut [u64]) -> bool
    requires r6 { R6 (books_view b.now) }
    requires m_len { length m.old ≡ 4096 }
    ensures { Says result (Owned (books_view b.now) (mark_at m.old)) }
{
    mark_all(b, m) && agrees(b.raw, b.places, m)
}
