// Requests on a card of five sectors of books, passed by value: each step's books stay for comparison.
use crate::line::{number_of, say, say_file, say_ids, say_number, say_state, word};
use requests::actual_delete::actual_delete;
use requests::amount::amount_of;
use requests::create_fixed::create_fixed;
use requests::create_variable::create_variable;
use requests::format::format;
use requests::grow::grow;
use requests::kinds::Index;
use requests::label::Label;
use requests::list::list;
use requests::locate::locate;
use requests::mount::mount;
use requests::recover::recover;
use requests::refusal::Refusal;
use requests::search::search;
use requests::set_protection::set_protection;
use requests::show::check_show;
use requests::space::space_of;
use requests::temporary_delete::temporary_delete;
use std::io;
use tables::counts::chosen_types;

// Formats the books for Z zones and N index tables.
pub fn format_books(rt: &impl Print, b: &mut [u8], zones: u32, indexes: u32) -> io::Result<()> {
    let label = Label {
        application: b"BENCH",
        volume: b"CARD",
        id: 1,
        owner: b"OWNER",
        code: b"CODE",
        date: b"\x07\xea\x01\x02\x03\x04",
    };
    let answer = format(b, Some(zones), Some(indexes), &label);
    say_number(rt, b"format Z=", zones)?;
    say_number(rt, b" N=", indexes)?;
    say_number(rt, b" number=", number_of(answer))?;
    say(rt, b"\n")
}

pub fn mount_books(rt: &impl Print, b: &mut [u8]) -> io::Result<()> {
    say_number(rt, b"mount number=", number_of(mount(b, &[0u32; 0])))?;
    say(rt, b"\n")
}

pub fn formatted(rt: &impl Print, zones: u32, indexes: u32) -> io::Result<[u8; 5120]> {
    let mut card = [0u8; 5120];
    format_books(rt, &mut card, zones, indexes)?;
    Ok(card)
}

pub fn mounted(rt: &impl Print, card: [u8; 5120]) -> io::Result<[u8; 5120]> {
    let mut after = card;
    mount_books(rt, &mut after)?;
    Ok(after)
}

// The new file's id, 0 beside a refusal.
fn id_of(made: Result<Index, Refusal>) -> u32 {
    made.unwrap_or(Index(0)).0
}

// Create fixed on `after`, which holds what `before` holds.
pub fn create_on(
    rt: &impl Print,
    step: &[u8],
    before: &[u8],
    after: &mut [u8],
    name: &[u8],
    size: i32,
    flag: i32,
) -> io::Result<()> {
    let date = b"\x07\xea\x01\x02\x03\x05";
    let made = create_fixed(
        after,
        &[0u32; 0],
        name,
        amount_of(size),
        chosen_types(flag),
        0,
        date,
    );
    say_file(rt, step, number_of(made), id_of(made), before, after)
}

pub fn create(
    rt: &impl Print,
    step: &[u8],
    card: [u8; 5120],
    name: &[u8],
    size: i32,
    flag: i32,
) -> io::Result<[u8; 5120]> {
    let mut after = card;
    create_on(rt, step, &card, &mut after, name, size, flag)?;
    Ok(after)
}

pub fn create_cell(
    rt: &impl Print,
    step: &[u8],
    card: [u8; 5120],
    name: &[u8],
    cell: i32,
) -> io::Result<[u8; 5120]> {
    let mut after = card;
    let date = b"\x07\xea\x01\x02\x03\x05";
    let made = create_variable(&mut after, &[0u32; 0], name, amount_of(cell), 0, date);
    say_file(rt, step, number_of(made), id_of(made), &card, &after)?;
    Ok(after)
}

pub fn grow_to(
    rt: &impl Print,
    step: &[u8],
    card: [u8; 5120],
    id: u32,
    long: i32,
) -> io::Result<[u8; 5120]> {
    let mut after = card;
    let date = b"\x07\xea\x01\x02\x03\x06";
    let answer = grow(&mut after, &[0u32; 0], id, amount_of(long), date);
    say_file(rt, step, number_of(answer), id, &card, &after)?;
    Ok(after)
}

// A request on a copy of the card, and what the books then say of the file.
fn stepped<F: FnOnce(&mut [u8]) -> Result<(), Refusal>>(
    rt: &impl Print,
    step: &[u8],
    card: [u8; 5120],
    id: u32,
    request: F,
) -> io::Result<[u8; 5120]>
    requires { F.IsAlwaysCallable request }
{
    let mut after = card;
    let answer = request(&mut after);
    say_state(rt, step, number_of(answer), id, &card, &after)?;
    Ok(after)
}

pub fn remove(
    rt: &impl Print,
    step: &[u8],
    card: [u8; 5120],
    body: &mut [u8],
    id: u32,
) -> io::Result<[u8; 5120]> {
    let date = b"\x07\xea\x01\x02\x03\x07";
    stepped(rt, step, card, id, |b| {
        temporary_delete(b, &[0u32; 0], body, id, date)
    })
}

pub fn restore(
    rt: &impl Print,
    step: &[u8],
    card: [u8; 5120],
    body: &mut [u8],
    id: u32,
) -> io::Result<[u8; 5120]> {
    let date = b"\x07\xea\x01\x02\x03\x08";
    stepped(rt, step, card, id, |b| {
        recover(b, &[0u32; 0], body, id, date)
    })
}

pub fn delete(
    rt: &impl Print,
    step: &[u8],
    card: [u8; 5120],
    body: &mut [u8],
    id: u32,
) -> io::Result<[u8; 5120]> {
    let date = b"\x07\xea\x01\x02\x03\x09";
    stepped(rt, step, card, id, |b| {
        actual_delete(b, &[0u32; 0], body, id, date)
    })
}

pub fn protect(
    rt: &impl Print,
    step: &[u8],
    card: [u8; 5120],
    id: u32,
    weights: u32,
) -> io::Result<[u8; 5120]> {
    let date = b"\x07\xea\x01\x02\x03\x0a";
    stepped(rt, step, card, id, |b| {
        set_protection(b, &[0u32; 0], id, weights, date)
    })
}

// Search with a list of two.
pub fn find(rt: &impl Print, b: &[u8], pattern: &[u8]) -> io::Result<()> {
    let mut ids = [0u32; 2];
    let answer = search(b, &[0u32; 0], pattern, &mut ids);
    say(rt, b"search ")?;
    say(rt, pattern)?;
    say_ids(rt, number_of(answer), answer.unwrap_or(0), ids[0], ids[1])
}

// List with room for two: each entry begins with the file's id.
pub fn list_from(rt: &impl Print, b: &[u8], from: u32) -> io::Result<()> {
    let mut entries = [0u8; 128];
    let answer = list(b, &[0u32; 0], from, &mut entries);
    say_number(rt, b"list ", from)?;
    say_ids(
        rt,
        number_of(answer),
        answer.unwrap_or(0),
        word(&entries, 0),
        word(&entries, 64),
    )
}

pub fn locate_place(rt: &impl Print, b: &[u8], id: u32, k: u32) -> io::Result<()> {
    say_number(rt, b"locate ", id)?;
    say_number(rt, b" ", k)?;
    match locate(b, &[0u32; 0], id, k) {
        Ok(s) => say_number(rt, b" sector=", s.0)?,
        Err(why) => say_number(rt, b" number=", why.number())?,
    }
    say(rt, b"\n")
}

// Show wants the body.
pub fn show_nothing(rt: &impl Print, b: &[u8], id: u32) -> io::Result<()> {
    say_number(
        rt,
        b"show without a body number=",
        number_of(check_show(b, &[0u32; 0], b"", id, 0)),
    )?;
    say(rt, b"\n")
}

// Space: refused if the books break a rule.
pub fn space(rt: &impl Print, b: &[u8]) -> io::Result<()> {
    match space_of(b, &[0u32; 0]) {
        Ok(space) => {
            say_number(rt, b"space sectors=", space.sectors)?;
            say_number(rt, b" used=", space.used)?;
        }
        Err(why) => say_number(rt, b"space number=", why.number())?,
    }
    say(rt, b"\n")
}
