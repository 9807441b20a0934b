// Rule R7 place by place: the lowest sector that is owned twice, or owned and withheld, or whose bit does not say whether it is. Sectors are marked as in the
// examination of the rule, but nothing is asked from the lowest sector on that was met marked already. So each sector is marked once at
// most, and the pass is linear, however many runs lie over each other.
ghost use Rattle.std.specs.Prelude.{◌≡◌, ◌+◌, ◌-◌, ◌*◌, ◌/◌, ◌≤◌, ◌<◌, length};
ghost use Rattle.tables.specs.Views.{books_view, cov, over_of, header_over, claims_of, claims_over};
ghost use Rattle.tables.specs.Withheld.{Withholds};
ghost use Rattle.tables.specs.Rules.R6.{R6};
ghost use Rattle.tables.specs.Rules.R7.{nothing};
ghost use Rattle.examination.specs.Findings.{Finds, Seeks};
ghost use Rattle.marks.specs.Marks.{TableFits, mark_at, MarksAdded, MarksAre};
ghost use Rattle.examination.specs.Rulings.{SectorLaw};
ghost use Rattle.examination.specs.Limits.{Lowers, MarkLaw};

use field::bits::get_bit;
use marks::marks::{WORD, WORDS, mark_piece, owned};
use marks::withheld::mark_withheld;
use tables::books::Books;
use tables::index;
use tables::index::Pointer;
use tables::kinds::{Index, Sector};
use tables::sizes::ZONE;

// Sector s's mark.
fn mark_of(m: &[u64], s: Sector) -> u32
    requires { s.0 / 64 < length m.now }
    ensures { (result ≡ mark_at m.now s.0) × (result < 2) }
{
    let j = (s.0 / WORD) as usize;
    let k = WORD - 1 - s.0 % WORD;
    ((m[j] >> k) % 2) as u32
}

// Marks a sector that is not marked.
fn set_mark(m: &mut [u64], s: Sector)
    requires s_in_bounds { s.0 / 64 < length m.old }
    requires s_value { mark_at m.old s.0 ≡ 0 }
    ensures { MarksAdded m.old m.new (cov s.0 1) }
{
    mark_piece(m, s, 1);
}

// Marks the sectors of a run that lie below `limit`. Answers the first of them that was marked already, else `limit`.
fn mark_below(m: &mut [u64], q: Pointer, limit: Sector) -> Sector
    requires m_len { length m.old ≡ 4096 }
    requires count_bound { q.start.0 + q.count ≤ 262144 }
    ensures { Lowers m.old limit.0 (cov q.start.0 q.count) m.new result.0 }
{
    for i in 0..q.count {
        let s = Sector(q.start.0 + i);
        if s.0 >= limit.0 {
            return limit;
        }
        if mark_of(m, s) != 0 {
            return s;
        }
        set_mark(m, s);
    }
    limit
}

// Marks the sectors under the pointers of table i, as far as they lie below the limit, which they may lower.
fn pointers_below(i: Index, t: &[u8], m: &mut [u64], limit: Sector) -> Sector
    requires { TableFits i.0 t.now (length m.old) }
    ensures { Lowers m.old limit.0 (over_of i.0 t.now) m.new result.0 }
{
    let slots = index::slots(i, t);
    let base = index::base(i, t);
    let mut low = limit;
    for j in 0..slots {
        let q = index::pointer_at(t, base + index::POINTER * j);
        low = mark_below(m, q, low);
    }
    low
}

// The same for those under its header pointer, if it is a parent.
fn header_below(i: Index, t: &[u8], m: &mut [u64], limit: Sector) -> Sector
    requires { TableFits i.0 t.now (length m.old) }
    ensures { Lowers m.old limit.0 (header_over i.0 t.now) m.new result.0 }
{
    if index::first_word(t) != i.0 {
        return limit;
    }
    mark_below(m, index::pointer_at(t, index::HEADER), limit)
}

// The same for all that it owns.
fn mark_table(i: Index, t: &[u8], m: &mut [u64], limit: Sector) -> Sector
    requires { TableFits i.0 t.now (length m.old) }
    ensures { Lowers m.old limit.0 (claims_of i.0 t.now) m.new result.0 }
{
    let low = pointers_below(i, t, m, limit);
    header_below(i, t, m, low)
}

// The same for all tables.
fn mark_tables(b: &Books<'_>, m: &mut [u64], limit: Sector) -> Sector
    requires r6 { R6 (books_view b.now) }
    requires m_len { length m.old ≡ 4096 }
    ensures { Lowers m.old limit.0 (claims_over (books_view b.now)) m.new result.0 }
{
    let mut low = limit;
    for k in 0..b.places.indexes {
        let i = Index(k + 1);
        low = mark_table(i, index::table(b, i), m, low);
    }
    low
}

// The lowest sector below `limit` whose mark is not its bit; else the limit, where that lies below zone Z.
fn first_unequal(b: &Books<'_>, m: &[u64], limit: Sector) -> Option<u32>
    requires m_len { length m.now ≡ 4096 }
    requires le_limit { (1024 ≤ limit.0) × (limit.0 ≤ 1024 * (b.now.places.zones - 1)) }
    ensures { Finds (MarkLaw m.now limit.0 (books_view b.now).bit) 1024 (1024 * (b.now.places.zones - 1)) result }
{
    let unequal = (ZONE..limit.0).find(|s| get_bit(b.raw, b.places.sectortable, *s as usize)
        != mark_of(m, Sector(*s)));
    if limit.0 < ZONE * (b.places.zones - 1) {
        return unequal.or(Some(limit.0));
    }
    unequal
}

// The lowest sector that breaks R7, whatever marks there were.
fn lowest_sector(b: &Books<'_>, withheld: &[u32], m: &mut [u64]) -> Option<u32>
    requires r6 { R6 (books_view b.now) }
    requires withholds { Withholds (books_view b.now) withheld.now }
    requires m_len { length m.old ≡ 4096 }
    ensures { Finds (SectorLaw (books_view b.now) withheld.now) 1024 (1024 * (b.now.places.zones - 1)) result }
{
    m.fill(0);
    mark_withheld(b, withheld, m);
    let limit = mark_tables(b, m, Sector(ZONE * (b.places.zones - 1)));
    first_unequal(b, m, limit)
}

// R7: is each sector outside zones 1 and Z owned once or withheld, and not both, if its bit is set, else neither? The lowest that is not so is
// sought only if it is asked for, in the marks of the examination: one table of them serves both, in one function, so that no call has two on
// its stack.
pub fn rule7(b: &Books<'_>, withheld: &[u32], seek: bool) -> Option<u32>
    requires r6 { R6 (books_view b.now) }
    requires withholds { Withholds (books_view b.now) withheld.now }
    ensures { Seeks seek (SectorLaw (books_view b.now) withheld.now) 1024 (1024 * (b.now.places.zones - 1)) result }
{
    let mut m = [0u64; WORDS];
    mark_withheld(b, withheld, &mut m);
    if owned(b, &mut m) {
        return None;
    }
    if !seek {
        return Some(0);
    }
    lowest_sector(b, withheld, &mut m)
}
