// An index table of 128 bytes: a reader and a writer for each of its fields.
// Each function names a field of the paper by its place and width; the generic readers and writers are the crate field's.
ghost use Rattle.std.specs.Prelude.{◌≡◌, ◌+◌, ◌≤◌, ◌<◌, length};
ghost use Rattle.field.specs.Numbers.{u32_at};
ghost use Rattle.tables.specs.Places.{Layout};
ghost use Rattle.tables.specs.Indexes.{table_place, table_at, erased, word_of, put_word, parent_of, put_parent, name_of, put_name, created_of, put_created, changed_of, put_changed, length_of, put_length, attribute_of, put_attribute, link_of, put_link, pointer_at, put_pointer, minus, slots_of, base_of, pointer_place, file_of};

use crate::books::Books;
use crate::kinds::{Index, Sector};
use crate::places::Places;
use crate::sizes::TABLE_LEN;
use field::numbers::{get_u16, get_u32, put_u16, put_u32};
use field::parts::{copy, fill};

// Where the fields begin that are looked at as bytes elsewhere: what follows the first word, a parent's header pointer and its ten
// pointers, the link.
pub const AFTER_WORD: usize = 4;

pub const HEADER: usize = 58;

pub const PARENT_POINTERS: usize = 64;

pub const LINK: usize = 124;

// The bytes of a pointer.
pub const POINTER: usize = 6;

// Weights of the attribute; weight 1 is what is left of a division by 2.
pub const WRITING: u32 = 2;

pub const WRITE_PROTECTED: u32 = 4;

pub const READ_PROTECTED: u32 = 8;

pub const VARIABLE: u32 = 16;

pub const DIRECTORY: u32 = 32;

pub const SYSTEM: u32 = 64;

// A run of sectors: the first, and how many.
#[derive(Clone, Copy, PartialEq, Eq)]
pub struct Pointer {
    pub start: Sector,
    pub count: u32,
}

// The byte at which index table i begins.
fn table_place(p: Places, i: Index) -> usize
    requires { (1 ≤ i.0) × (i.0 ≤ 4096) × (p.indextable ≤ 1048576) }
    ensures { result ≡ table_place p i.0 }
{
    p.indextable + TABLE_LEN * (i.0 as usize - 1)
}

// The 128 bytes of index table i.
pub fn table<'a>(b: &Books<'a>, i: Index) -> &'a [u8]
    requires le_i { (1 ≤ i.0) × (i.0 ≤ b.now.places.indexes) }
    ensures { (result.now ≡ table_at b.now.places b.now.raw.now i.0) × (length result.now ≡ 128) }
{
    let at = b.places.indextable + TABLE_LEN * (i.0 as usize - 1);
    let end = at + TABLE_LEN;
    &b.raw[at..end]
}

// Makes its first n bytes null.
pub fn erase(b: &mut [u8], p: Places, i: Index, n: usize)
    requires layout { Layout p (length b.old) }
    requires le_i { (1 ≤ i.0) × (i.0 ≤ p.indexes) × (n ≤ 128) }
    ensures { b.new ≡ erased p b.old i.0 n }
{
    fill(b, table_place(p, i), n, 0);
}

// What the table begins with: 0, its number, or minus its number.
pub fn first_word(t: &[u8]) -> u32
    requires { length t.now ≡ 128 }
    ensures { result ≡ word_of t.now }
{
    get_u32(t, 0)
}

pub fn put_word(b: &mut [u8], p: Places, i: Index, n: u32)
    requires layout { Layout p (length b.old) }
    requires le_i { (1 ≤ i.0) × (i.0 ≤ p.indexes) }
    ensures { b.new ≡ put_word p b.old i.0 n }
{
    put_u32(b, table_place(p, i), n);
}

// A child's parent.
pub fn parent(t: &[u8]) -> Index
    requires { length t.now ≡ 128 }
    ensures { result.0 ≡ parent_of t.now }
{
    Index(get_u32(t, 4))
}

pub fn put_parent(b: &mut [u8], p: Places, i: Index, f: Index)
    requires layout { Layout p (length b.old) }
    requires le_i { (1 ≤ i.0) × (i.0 ≤ p.indexes) }
    ensures { b.new ≡ put_parent p b.old i.0 f.0 }
{
    put_u32(b, table_place(p, i) + 4, f.0);
}

// A parent's name, 24 bytes.
pub fn name(t: &[u8]) -> &[u8]
    requires { length t.now ≡ 128 }
    ensures { (result.now ≡ name_of t.now) × (length result.now ≡ 24) }
{
    &t[4..28]
}

pub fn put_name(b: &mut [u8], p: Places, i: Index, name: &[u8])
    requires layout { Layout p (length b.old) }
    requires le_i { (1 ≤ i.0) × (i.0 ≤ p.indexes) × (length name.now ≤ 24) }
    ensures { b.new ≡ put_name p b.old i.0 name.now }
{
    copy(b, table_place(p, i) + 4, name);
}

// A parent's creation date.
pub fn creation_date(t: &[u8]) -> &[u8]
    requires { length t.now ≡ 128 }
    ensures { (result.now ≡ created_of t.now) × (length result.now ≡ 6) }
{
    &t[28..34]
}

pub fn put_creation_date(b: &mut [u8], p: Places, i: Index, date: &[u8])
    requires layout { Layout p (length b.old) }
    requires le_i { (1 ≤ i.0) × (i.0 ≤ p.indexes) × (length date.now ≡ 6) }
    ensures { b.new ≡ put_created p b.old i.0 date.now }
{
    copy(b, table_place(p, i) + 28, date);
}

// A parent's change date.
pub fn change_date(t: &[u8]) -> &[u8]
    requires { length t.now ≡ 128 }
    ensures { (result.now ≡ changed_of t.now) × (length result.now ≡ 6) }
{
    &t[34..40]
}

pub fn put_change_date(b: &mut [u8], p: Places, i: Index, date: &[u8])
    requires layout { Layout p (length b.old) }
    requires le_i { (1 ≤ i.0) × (i.0 ≤ p.indexes) × (length date.now ≡ 6) }
    ensures { b.new ≡ put_changed p b.old i.0 date.now }
{
    copy(b, table_place(p, i) + 34, date);
}

// A parent's byte length.
pub fn byte_length(t: &[u8]) -> u32
    requires { length t.now ≡ 128 }
    ensures { result ≡ length_of t.now }
{
    get_u32(t, 40)
}

pub fn put_length(b: &mut [u8], p: Places, i: Index, n: u32)
    requires layout { Layout p (length b.old) }
    requires le_i { (1 ≤ i.0) × (i.0 ≤ p.indexes) }
    ensures { b.new ≡ put_length p b.old i.0 n }
{
    put_u32(b, table_place(p, i) + 40, n);
}

// A parent's attribute.
pub fn attribute(t: &[u8]) -> u32
    requires { length t.now ≡ 128 }
    ensures { (result ≡ attribute_of t.now) × (result < 65536) }
{
    get_u16(t, 44)
}

pub fn put_attribute(b: &mut [u8], p: Places, i: Index, a: u32)
    requires layout { Layout p (length b.old) }
    requires le_i { (1 ≤ i.0) × (i.0 ≤ p.indexes) × (a < 65536) }
    ensures { b.new ≡ put_attribute p b.old i.0 a }
{
    put_u16(b, table_place(p, i) + 44, a);
}

// A pointer's start, the lower half first: the parts of the number that are used are then read as halves, not byte by byte.
fn start_at(t: &[u8], at: usize) -> u32
    requires { at + 4 ≤ length t.now }
    ensures { result ≡ u32_at t.now at }
{
    let low = get_u16(t, at + 2);
    low + get_u16(t, at) * 65536
}

// The pointer whose six bytes begin at `at`: a parent's header at 58, its ten from 64 on, a child's seventeen from 22 on.
pub fn pointer_at(t: &[u8], at: usize) -> Pointer
    requires t_len { length t.now ≡ 128 }
    requires at_bound { at + 6 ≤ 128 }
    ensures { (result ≡ pointer_at t.now at) × (result.count < 65536) }
{
    Pointer {
        start: Sector(start_at(t, at)),
        count: get_u16(t, at + 4),
    }
}

pub fn put_pointer(b: &mut [u8], p: Places, i: Index, at: usize, q: Pointer)
    requires layout { Layout p (length b.old) }
    requires le_i { (1 ≤ i.0) × (i.0 ≤ p.indexes) × (at ≤ 118) × (q.count < 65536) }
    ensures { b.new ≡ put_pointer p b.old i.0 at q }
{
    let place = table_place(p, i) + at;
    put_u32(b, place, q.start.0);
    put_u16(b, place + 4, q.count);
}

// The next table of the chain: a parent's first child, a child's next, a free table's next free one.
pub fn link(t: &[u8]) -> Index
    requires { length t.now ≡ 128 }
    ensures { result.0 ≡ link_of t.now }
{
    Index(get_u32(t, 124))
}

pub fn put_link(b: &mut [u8], p: Places, i: Index, next: Index)
    requires layout { Layout p (length b.old) }
    requires le_i { (1 ≤ i.0) × (i.0 ≤ p.indexes) }
    ensures { b.new ≡ put_link p b.old i.0 next.0 }
{
    put_u32(b, table_place(p, i) + 124, next.0);
}

// Minus i, as a child of number i begins with it.
pub fn minus(i: Index) -> u32
    requires { (1 ≤ i.0) × (i.0 ≤ 4096) }
    ensures { result ≡ minus i.0 }
{
    4294967295 - (i.0 - 1)
}

// How many places for pointers table i has: none if it is free, ten if it is a parent, seventeen if it is a child.
pub fn slots(i: Index, t: &[u8]) -> usize
    requires { length t.now ≡ 128 }
    ensures { (result ≡ slots_of i.0 t.now) × (result ≤ 17) }
{
    let word = first_word(t);
    if word == 0 {
        return 0;
    }
    if word == i.0 {
        return 10;
    }
    17
}

// Where the first of them begins.
pub fn base(i: Index, t: &[u8]) -> usize
    requires { length t.now ≡ 128 }
    ensures { (result ≡ base_of i.0 t.now) × (result ≤ 64) }
{
    if first_word(t) == i.0 {
        return 64;
    }
    22
}

// Where the slot-th of so many pointers begins: a parent's and a child's end at the same byte.
pub fn pointer_place(capacity: usize, slot: usize) -> usize
    requires { (slot ≤ capacity) × (capacity ≤ 17) }
    ensures { (result ≡ pointer_place capacity slot) × (result ≤ 118) }
{
    118 - POINTER * (capacity - slot)
}

// The file that table i is of; 0 if the table is free.
pub fn file(i: Index, t: &[u8]) -> Index
    requires { length t.now ≡ 128 }
    ensures { result.0 ≡ file_of i.0 t.now }
{
    let word = first_word(t);
    if word == 0 {
        return Index(0);
    }
    if word == i.0 {
        return i;
    }
    parent(t)
}
