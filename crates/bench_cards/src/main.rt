// The bench cards on books in memory, a line for each step. No block is withheld: the list that goes with each request is empty.
#![tactic(auto)]

mod card;
mod curve;
mod header;
mod line;

ghost use Rattle.std.specs.Prelude.{◌≡◌, length};

use crate::card::{
    create, create_cell, create_on, delete, find, format_books, formatted, grow_to, list_from,
    locate_place, mount_books, mounted, protect, remove, restore, show_nothing, space,
};
use crate::curve::{give_back, make, mark, read_at, show_at, take_back, write_at};
use crate::header::header_day;
use std::io;

// Counts per zone type, on fresh cards with open zones enough; P3 follows P2 on its card.
fn counts_cards(rt: &impl Print) -> io::Result<()> {
    // 1,773 sectors, default: H1 G2 F3 E2 D3 C1
    let six = mounted(rt, formatted(rt, 8, 8)?)?;
    create(rt, b"P1", six, b"one", 1815552, -1)?;
    // 1,240 KiB, H, F, E: 1, 3, 2
    let three = mounted(rt, formatted(rt, 5, 8)?)?;
    let two = create(rt, b"P2", three, b"two", 1269760, 176)?;
    // size 1, H and E: 0, 1
    create(rt, b"P3", two, b"three", 1, 144)?;
    // 1,048,577 bytes, H: 2
    let pair = mounted(rt, formatted(rt, 4, 8)?)?;
    create(rt, b"P4", pair, b"four", 1048577, 128)?;
    Ok(())
}

// Z=4, fresh: P5 to P8 in order, then names of 24 and of 25 bytes.
fn four_zones(rt: &impl Print) -> io::Result<()> {
    let fresh = mounted(rt, formatted(rt, 4, 8)?)?;
    // 5,000 bytes default
    let five = create(rt, b"P5", fresh, b"five", 5000, 0)?;
    // then 1 byte
    let six = create(rt, b"P6", five, b"six", 1, 0)?;
    // then 20,480 bytes default: no open zone for type E
    let seven = create(rt, b"P7", six, b"seven", 20480, 0)?;
    // with C alone
    let eight = create(rt, b"P8", seven, b"eight", 20480, 4)?;
    let taken = create(rt, b"name of 24", eight, b"ABCDEFGHIJKLMNOPQRSTUVWX", 1, 0)?;
    let refused = create(rt, b"name of 25", taken, b"ABCDEFGHIJKLMNOPQRSTUVWXY", 1, 0)?;
    space(rt, &refused)
}

// Z=3, fresh: 5,000 bytes default, then with C.
fn three_zones(rt: &impl Print) -> io::Result<()> {
    let fresh = mounted(rt, formatted(rt, 3, 8)?)?;
    let refused = create(rt, b"P9 default", fresh, b"nine", 5000, 0)?;
    create(rt, b"P9 C", refused, b"nine", 5000, 4)?;
    Ok(())
}

// Z=36, 33,554,432 bytes, H: a pointer has at most 32,767 sectors.
fn many_zones(rt: &impl Print) -> io::Result<()> {
    let mut books = [0u8; 9216];
    format_books(rt, &mut books, 36, 8)?;
    mount_books(rt, &mut books)?;
    let before = books;
    create_on(rt, b"P10", &before, &mut books, b"ten", 33554432, 128)
}

// A refused create leaves every byte.
fn refusals(rt: &impl Print) -> io::Result<()> {
    let fresh = formatted(rt, 3, 1)?;
    let flat = create(rt, b"not mounted", fresh, b"file", 1, 0)?;
    let ready = mounted(rt, flat)?;
    let empty = create(rt, b"no name", ready, b"", 1, 0)?;
    let star = create(rt, b"name with *", empty, b"fi*e", 1, 0)?;
    let none = create(rt, b"size 0", star, b"file", 0, 0)?;
    let odd = create(rt, b"flag 2", none, b"file", 1, 2)?;
    let cell = create_cell(rt, b"cell 1000", odd, b"file", 1000)?;
    // the one index table is taken
    let one = create(rt, b"first file", cell, b"file", 1, 4)?;
    create(rt, b"second file", one, b"file", 1, 4)?;
    Ok(())
}

// A wholly free D zone is given to type H.
fn free_zone_given(rt: &impl Print) -> io::Result<()> {
    let mut card = formatted(rt, 3, 8)?;
    // zone 2: type 4, 256 free blocks
    card[2055] = 4;
    card[2056] = 1;
    let ready = mounted(rt, card)?;
    let given = create(rt, b"D zone to H", ready, b"file", 1, 128)?;
    space(rt, &given)
}

// Temporary, then actual delete.
fn delete_both(
    rt: &impl Print,
    card: [u8; 5120],
    body: &mut [u8],
    id: u32,
) -> io::Result<[u8; 5120]> {
    let marked = remove(rt, b"temporary delete", card, body, id)?;
    delete(rt, b"actual delete", marked, body, id)
}

// Freed blocks are used again, the lowest first.
fn freed_used_again(rt: &impl Print, body: &mut [u8]) -> io::Result<()> {
    let fresh = mounted(rt, formatted(rt, 3, 8)?)?;
    let one = create(rt, b"three blocks", fresh, b"one", 3000, 4)?;
    let two = create(rt, b"one block", one, b"two", 1000, 4)?;
    let freed = delete_both(rt, two, body, 1)?;
    space(rt, &freed)?;
    let again = create(rt, b"five blocks", freed, b"again", 5000, 4)?;
    space(rt, &again)
}

fn put_byte(b: &mut [u8], at: usize, v: u8) {
    if at < b.len() {
        b[at] = v;
    }
}

// Pointer i of file 1 by hand: sector 1025 + 2i alone.
fn put_single(b: &mut [u8], i: usize) {
    if i >= 10 {
        return;
    }
    put_byte(b, 4162 + 6 * i, 4);
    put_byte(b, 4163 + 6 * i, (1 + 2 * i) as u8);
    put_byte(b, 4165 + 6 * i, 1);
}

fn put_singles(b: &mut [u8]) {
    for i in 0..10 {
        put_single(b, i);
    }
}

// The ten sectors of file 1, moved by hand to every second one: 1025, 1027, .., 1043.
fn apart(card: [u8; 5120]) -> [u8; 5120] {
    let mut after = card;
    after[3200] = 0x55;
    after[3201] = 0x55;
    after[3202] = 0x50;
    put_singles(&mut after);
    after
}

// Clear blocks between set ones are given first; the parent holds ten pointers, a child the next.
fn eleven_pointers(rt: &impl Print, body: &mut [u8]) -> io::Result<()> {
    let fresh = mounted(rt, formatted(rt, 3, 8)?)?;
    let one = create(rt, b"ten blocks", fresh, b"one", 10240, 4)?;
    let moved = apart(one);
    space(rt, &moved)?;
    let two = create(rt, b"twelve blocks", moved, b"two", 12288, 4)?;
    space(rt, &two)?;
    // both its tables go before the old free chain, in order
    let freed = delete_both(rt, two, body, 2)?;
    space(rt, &freed)
}

// The cards of three zones whose blocks are freed.
fn giving_back(rt: &impl Print, body: &mut [u8]) -> io::Result<()> {
    freed_used_again(rt, body)?;
    eleven_pointers(rt, body)
}

// Grow of a variable file with blocks of type D.
fn growing(rt: &impl Print) -> io::Result<()> {
    let fresh = mounted(rt, formatted(rt, 3, 8)?)?;
    let made = create_cell(rt, b"cell 4096", fresh, b"grows", 4096)?;
    let fits = grow_to(rt, b"grow to 4096", made, 1, 4096)?;
    let same = grow_to(rt, b"grow to 4096 again", fits, 1, 4096)?;
    let less = grow_to(rt, b"grow to 100", same, 1, 100)?;
    let block = grow_to(rt, b"grow to 4097", less, 1, 4097)?;
    let behind = create(rt, b"D", block, b"behind", 4096, 8)?;
    let more = grow_to(rt, b"grow to 8193", behind, 1, 8193)?;
    let below = grow_to(rt, b"grow to -1", more, 1, -1)?;
    let fixed = grow_to(rt, b"grow of a fixed file", below, 2, 5000)?;
    let unknown = grow_to(rt, b"grow of no file", fixed, 3, 5000)?;
    // the zone has 256 blocks, one of them the other file's
    let full = grow_to(rt, b"grow to 1044481", unknown, 1, 1044481)?;
    space(rt, &full)
}

// Two files with blocks of type D that grow in turn. Side by side, the block behind each file's end is the other's.
fn in_turn(rt: &impl Print, body: &mut [u8]) -> io::Result<()> {
    let fresh = mounted(rt, formatted(rt, 4, 8)?)?;
    let one = create_cell(rt, b"cell 4096", fresh, b"one", 4096)?;
    let both = create_cell(rt, b"cell 4096", one, b"two", 4096)?;
    let first = grow_to(rt, b"grow to 8192", both, 1, 8192)?;
    let second = grow_to(rt, b"grow to 8192", first, 2, 8192)?;
    behind_a_hole(rt, second, body)
}

// Once the first is gone, the block behind the second's end is free and is taken, though lower ones are. A new file begins at the lowest of
// these.
fn behind_a_hole(rt: &impl Print, card: [u8; 5120], body: &mut [u8]) -> io::Result<()> {
    let gone = delete_both(rt, card, body, 1)?;
    let joined = grow_to(rt, b"grow to 12288", gone, 2, 12288)?;
    let again = create_cell(rt, b"cell 4096", joined, b"three", 4096)?;
    // two blocks: the other hole, then behind the second file
    let holes = grow_to(rt, b"grow to 12288", again, 1, 12288)?;
    let last = grow_to(rt, b"grow to 16384", holes, 2, 16384)?;
    space(rt, &last)
}

// Two curves on the card, 1 "CURVE 60A" and 2 "CURVE 100A".
fn asked(rt: &impl Print, card: &[u8]) -> io::Result<()> {
    find(rt, card, b"CURVE?")?;
    find(rt, card, b"*URVE *0A")?;
    find(rt, card, b"?")?;
    find(rt, card, b"")?;
    list_from(rt, card, 1)?;
    list_from(rt, card, 2)?;
    list_from(rt, card, 9)?;
    list_from(rt, card, 0)?;
    locate_place(rt, card, 1, 4)?;
    locate_place(rt, card, 1, 5)?;
    locate_place(rt, card, 2, 0)?;
    locate_place(rt, card, 3, 0)?;
    show_nothing(rt, card, 1)
}

// A day at the bench, as far as the books tell it. Each part of the day ends with the next: a curve is made and deleted,
fn day(rt: &impl Print, body: &mut [u8]) -> io::Result<()> {
    let fresh = mounted(rt, formatted(rt, 4, 8)?)?;
    let curve = create(rt, b"curve", fresh, b"CURVE 60A", 5000, 0)?;
    let active = delete(rt, b"actual delete of an active file", curve, body, 1)?;
    let marked = remove(rt, b"temporary delete", active, body, 1)?;
    let twice = remove(rt, b"temporary delete again", marked, body, 1)?;
    day_recovered(rt, twice, body)
}

// recovered, when another has taken no part of it,
fn day_recovered(rt: &impl Print, card: [u8; 5120], body: &mut [u8]) -> io::Result<()> {
    // the deleted file keeps its id and its blocks, so that it can be recovered
    let other = create(rt, b"another curve", card, b"CURVE 100A", 5000, 0)?;
    let back = restore(rt, b"recover", other, body, 1)?;
    let same = restore(rt, b"recover again", back, body, 1)?;
    asked(rt, &same)?;
    day_protected(rt, same, body)
}

// the other is protected for a while,
fn day_protected(rt: &impl Print, card: [u8; 5120], body: &mut [u8]) -> io::Result<()> {
    let shut = protect(rt, b"protect 4", card, 2, 4)?;
    let kept = remove(rt, b"temporary delete of a protected file", shut, body, 2)?;
    let odd = protect(rt, b"protect 5", kept, 2, 5)?;
    let free = protect(rt, b"protect 0", odd, 2, 0)?;
    day_reused(rt, free, body)
}

// what the first had is used again,
fn day_reused(rt: &impl Print, card: [u8; 5120], body: &mut [u8]) -> io::Result<()> {
    let gone = delete_both(rt, card, body, 1)?;
    let none = restore(rt, b"recover of no file", gone, body, 1)?;
    // its index table and its blocks are the first to be had again
    let again = create(rt, b"reuse", none, b"CURVE 25A", 5000, 0)?;
    day_given_back(rt, again, body)
}

// and at last both are given back.
fn day_given_back(rt: &impl Print, card: [u8; 5120], body: &mut [u8]) -> io::Result<()> {
    let first = delete_both(rt, card, body, 2)?;
    let empty = delete_both(rt, first, body, 1)?;
    let whole = create(rt, b"H", empty, b"file", 1, 128)?;
    space(rt, &whole)
}

// A curve of five sectors: 1s, but for the first two bytes of the first and of the last sector.
fn trip_curve() -> [u8; 5120] {
    let mut c = [1u8; 5120];
    c[0] = 11;
    c[1] = 12;
    c[4096] = 51;
    c[4097] = 52;
    c
}

// A day at the bench with the body of a card of three zones, whose one zone has the curve in its first five sectors. Each part of the day ends
// with the next: the curve is written and read back,
fn morning(rt: &impl Print, books: &mut [u8], body: &mut [u8]) -> io::Result<()> {
    write_at(rt, b"write", books, body, 0, 5120, false, &trip_curve())?;
    read_at(rt, b"read", books, body, 0, 5120, false)?;
    read_at(rt, b"read exchanged", books, body, 0, 5120, true)?;
    noon(rt, books, body)
}

// exchanged,
fn noon(rt: &impl Print, books: &mut [u8], body: &mut [u8]) -> io::Result<()> {
    write_at(
        rt,
        b"write exchanged",
        books,
        body,
        0,
        5120,
        true,
        &trip_curve(),
    )?;
    read_at(rt, b"read what was exchanged", books, body, 0, 5120, false)?;
    afternoon(rt, books, body)
}

// written again and looked at,
fn afternoon(rt: &impl Print, books: &mut [u8], body: &mut [u8]) -> io::Result<()> {
    write_at(rt, b"write", books, body, 0, 5120, false, &trip_curve())?;
    look(rt, books, body)?;
    evening(rt, books, body)
}

// deleted and given back, and its sectors are used again.
fn evening(rt: &impl Print, books: &mut [u8], body: &mut [u8]) -> io::Result<()> {
    leave(rt, books, body)?;
    lose(rt, books, body)?;
    reuse(rt, books, body)
}

// The curve read in parts, and shown.
fn look(rt: &impl Print, books: &[u8], body: &[u8]) -> io::Result<()> {
    read_at(rt, b"read at 4096 of 2048", books, body, 4096, 2048, false)?;
    read_at(rt, b"read at 5120", books, body, 5120, 1024, false)?;
    read_at(rt, b"read of 1023", books, body, 0, 1023, false)?;
    show_at(rt, books, body, 4)?;
    show_at(rt, books, body, 5)?;
    read_at(rt, b"read without a body", books, b"", 0, 1024, false)
}

// The curve is deleted, and recovered with its bytes.
fn leave(rt: &impl Print, books: &mut [u8], body: &mut [u8]) -> io::Result<()> {
    mark(rt, books, body, 1)?;
    read_at(rt, b"read deleted", books, body, 0, 5120, false)?;
    take_back(rt, books, body, 1)?;
    read_at(rt, b"read recovered", books, body, 0, 5120, false)
}

// The curve is given back.
fn lose(rt: &impl Print, books: &mut [u8], body: &mut [u8]) -> io::Result<()> {
    mark(rt, books, body, 1)?;
    give_back(rt, books, body, 1)?;
    read_at(rt, b"read given back", books, body, 0, 5120, false)
}

// The next file finds what the body holds, and writes over it.
fn reuse(rt: &impl Print, books: &mut [u8], body: &mut [u8]) -> io::Result<()> {
    make(rt, b"reuse", books, b"CURVE 25A")?;
    read_at(rt, b"read reused", books, body, 0, 5120, false)?;
    write_at(
        rt,
        b"write reused",
        books,
        body,
        0,
        5120,
        false,
        &[2u8; 5120],
    )?;
    read_at(rt, b"read reused", books, body, 0, 5120, false)
}

fn day_moving(rt: &impl Print, body: &mut [u8]) -> io::Result<()> {
    let mut books = mounted(rt, formatted(rt, 3, 8)?)?;
    make(rt, b"curve", &mut books, b"CURVE 60A")?;
    morning(rt, &mut books, body)
}

// The cards whose requests take the body: half of that of four zones is that of three.
fn cards_on(rt: &impl Print, body: &mut [u8]) -> io::Result<()>
    requires { length body.old ≡ 2097152 }
{
    giving_back(rt, &mut body[0..1048576])?;
    growing(rt)?;
    in_turn(rt, body)?;
    day(rt, body)?;
    day_moving(rt, &mut body[0..1048576])?;
    header_day(rt, body)
}

// The body is made once, for a card of four zones.
fn cards_with_body(rt: &impl Print) -> io::Result<()> {
    let mut body = [0u8; 2097152];
    cards_on(rt, &mut body)
}

fn main(rt: HostRuntime) -> io::Result<()> {
    counts_cards(&rt)?;
    four_zones(&rt)?;
    three_zones(&rt)?;
    many_zones(&rt)?;
    refusals(&rt)?;
    free_zone_given(&rt)?;
    cards_with_body(&rt)
}
