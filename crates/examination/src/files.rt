// R8: names, lengths, zone types, attributes and dates of the files. Two passes over the index tables gather each file's sectors and the
// variable files that lie in more than one zone type; here the parents are judged.
ghost use Rattle.std.specs.Prelude.{◌≡◌, ◌+◌, ◌≤◌, length};
ghost use Rattle.field.specs.Says.{Says};
ghost use Rattle.tables.specs.Views.{books_view};
ghost use Rattle.examination.specs.Findings.{Finds};
ghost use Rattle.tables.specs.Rules.R6.{R6};
ghost use Rattle.tables.specs.Rules.R8.{FileLaw};
ghost use Rattle.examination.specs.Surveys.{Summed, TypesMarked, LengthLaw, Weighted, ParentLaw};

use crate::sizes::MARKS;
use crate::sums::sum_sectors;
use crate::types::mark_files;
use tables::books::Books;
use tables::date::date_valid;
use tables::entry::decode;
use tables::index;
use tables::kind::{is_parent, is_variable};
use tables::kinds::Index;
use tables::name::name_valid;
use tables::sizes::{ROUND_UP, SECTOR};

// Is a file's byte length lawful? mark is 0 if it lies in one zone type.
fn size_valid(bytes: u32, variable: bool, sectors: u32, mark: u8) -> bool
    ensures { Says result (LengthLaw bytes variable sectors mark) }
{
    if bytes > 2147483647 {
        return false;
    }
    if (bytes + ROUND_UP) / SECTOR > sectors {
        return false;
    }
    if variable {
        return mark == 0;
    }
    1 <= bytes
}

fn weights_valid(a: u32) -> bool
    ensures { Says result (Weighted a) }
{
    a <= 127 && a / index::DIRECTORY % 2 + a / index::SYSTEM % 2 <= 1
}

// Does parent t, of variable size or not, with so many sectors and this mark, keep the rule?
fn parent_valid(t: &[u8], variable: bool, sectors: u32, mark: u8) -> bool
    requires { length t.now ≡ 128 }
    ensures { Says result (ParentLaw t.now variable sectors mark) }
{
    name_valid(index::name(t))
        && size_valid(index::byte_length(t), variable, sectors, mark)
        && weights_valid(index::attribute(t))
        && date_valid(index::creation_date(t))
        && date_valid(index::change_date(t))
}

// Does index i?
fn file_valid(b: &Books<'_>, i: Index, s: &[u32], m: &[u8]) -> bool
    requires le_i { (1 ≤ i.0) × (i.0 ≤ b.now.places.indexes) }
    requires summed { Summed (books_view b.now) b.now.places.indexes s.now }
    requires types_marked { TypesMarked (books_view b.now) b.now.places.indexes m.now }
    ensures { Says result (FileLaw (books_view b.now) i.0) }
{
    let e = decode(b, i);
    if !is_parent(e) {
        return true;
    }
    let at = i.0 as usize;
    parent_valid(index::table(b, i), is_variable(e), s[at], m[at])
}

// The lowest index that breaks the rule.
fn first_broken(b: &Books<'_>, s: &[u32], m: &[u8]) -> Option<u32>
    requires summed { Summed (books_view b.now) b.now.places.indexes s.now }
    requires types_marked { TypesMarked (books_view b.now) b.now.places.indexes m.now }
    ensures { Finds (FileLaw (books_view b.now)) 1 (b.now.places.indexes + 1) result }
{
    (1..b.places.indexes + 1).find(|i| !file_valid(b, Index(*i), s, m))
}

// Do all files keep the rule, and if not, which is the lowest index that does not?
pub fn rule8(b: &Books<'_>) -> Option<u32>
    requires r6 { R6 (books_view b.now) }
    ensures { Finds (FileLaw (books_view b.now)) 1 (b.now.places.indexes + 1) result }
{
    let mut sectors = [0u32; MARKS];
    let mut marks = [0u8; MARKS];
    sum_sectors(b, &mut sectors);
    mark_files(b, &mut marks);
    first_broken(b, &sectors, &marks)
}
