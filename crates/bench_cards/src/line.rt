// One line a step: its name, the number answered, and for a file what its books say of it.
// A file's length and pointers are read from its parent, a zone's type and free count from the zone table.
use field::numbers::{get_u16, get_u32};
use field::parts::same;
use requests::refusal::Refusal;
use std::io;

// This paper's number of an answer.
pub fn number_of<T: Copy>(answer: Result<T, Refusal>) -> u32 {
    match answer {
        Ok(_) => 0,
        Err(why) => why.number(),
    }
}

pub fn say(rt: &impl Print, text: &[u8]) -> io::Result<()> {
    rt.write_all(text)
}

pub fn say_number(rt: &impl Print, name: &[u8], n: u32) -> io::Result<()> {
    say(rt, name)?;
    print!(rt; "{n}")
}

pub fn say_pair(rt: &impl Print, a: u32, c: u32) -> io::Result<()> {
    say_number(rt, b"(", a)?;
    say_number(rt, b",", c)?;
    say(rt, b")")
}

// The number of two bytes, 0 outside the slice.
pub fn half(s: &[u8], at: usize) -> u32 {
    if s.len() < 2 {
        return 0;
    }
    if at > s.len() - 2 {
        return 0;
    }
    get_u16(s, at)
}

// The number of four bytes, 0 outside the slice.
pub fn word(s: &[u8], at: usize) -> u32 {
    if s.len() < 4 {
        return 0;
    }
    if at > s.len() - 4 {
        return 0;
    }
    get_u32(s, at)
}

// The pointer at byte `at` of an index table, if it is used.
fn say_pointer(rt: &impl Print, table: &[u8], at: usize) -> io::Result<()> {
    if at > 118 {
        return Ok(());
    }
    let start = word(table, at);
    let count = half(table, at + 4);
    if count > 0 {
        say_pair(rt, start, count)?;
    }
    Ok(())
}

// The pointers of an index table: a parent's from byte 64 on, a child's from byte 22 on.
fn say_pointers(rt: &impl Print, table: &[u8], from: usize) -> io::Result<()> {
    say(rt, b" pointers=")?;
    for at in (from..119).step_by(6) {
        say_pointer(rt, table, at)?;
    }
    Ok(())
}

// Where index table i stands: the index tables, eight at most, are the last sector of every card here.
fn place(len: usize, i: u32) -> usize {
    if len < 1024 {
        return 0;
    }
    if i < 1 {
        return 0;
    }
    if i > 8 {
        return 0;
    }
    len - 1024 + 128 * (i as usize - 1)
}

fn say_child(rt: &impl Print, b: &[u8], i: u32) -> io::Result<()> {
    let at = place(b.len(), i);
    if at <= b.len() {
        say_number(rt, b" child=", i)?;
        say_pointers(rt, &b[at..], 22)?;
    }
    Ok(())
}

// Length and pointers of file id, with its first child if it has one.
fn say_parent(rt: &impl Print, b: &[u8], id: u32) -> io::Result<()> {
    let at = place(b.len(), id);
    if at <= b.len() {
        let parent = &b[at..];
        say_number(rt, b" length=", word(parent, 40))?;
        say_pointers(rt, parent, 64)?;
        let child = word(parent, 124);
        if child > 0 {
            say_child(rt, b, child)?;
        }
    }
    Ok(())
}

// Where the header of file id lies, if it has one.
pub fn say_header(rt: &impl Print, b: &[u8], id: u32) -> io::Result<()> {
    let at = place(b.len(), id);
    if at <= b.len() {
        let parent = &b[at..];
        if half(parent, 62) > 0 {
            say(rt, b" header=")?;
            say_pointer(rt, parent, 58)?;
        }
    }
    Ok(())
}

// Type and free count of zone 2, and of zone 3 if it isn't the last.
pub fn say_zones(rt: &impl Print, b: &[u8]) -> io::Result<()> {
    say(rt, b" zones=")?;
    say_pair(rt, half(b, 2054), half(b, 2056))?;
    if word(b, 130) > 3 {
        say_pair(rt, half(b, 2060), half(b, 2062))?;
    }
    Ok(())
}

// Is every byte as it was?
fn say_books(rt: &impl Print, before: &[u8], after: &[u8]) -> io::Result<()> {
    if before.len() != after.len() {
        return Ok(());
    }
    if same(before, 0, after) {
        return say(rt, b" books=kept\n");
    }
    say(rt, b" books=changed\n")
}

// The line of a request that makes or lengthens file id.
pub fn say_file(
    rt: &impl Print,
    step: &[u8],
    number: u32,
    id: u32,
    before: &[u8],
    after: &[u8],
) -> io::Result<()> {
    say(rt, step)?;
    say_number(rt, b" number=", number)?;
    say_number(rt, b" id=", id)?;
    if number == 0 {
        say_parent(rt, after, id)?;
        say_zones(rt, after)?;
    }
    say_books(rt, before, after)
}

// The line of a request that answers two ids at most, beside their count.
pub fn say_ids(
    rt: &impl Print,
    number: u32,
    count: u32,
    first: u32,
    second: u32,
) -> io::Result<()> {
    say_number(rt, b" number=", number)?;
    say_number(rt, b" count=", count)?;
    say(rt, b" ids=")?;
    say_pair(rt, first, second)?;
    say(rt, b"\n")
}

// The free chain from sector 1 on: N is eight at most.
fn say_chain(rt: &impl Print, b: &[u8]) -> io::Result<()> {
    say(rt, b" chain=")?;
    let mut i = word(b, 1050);
    for _ in 0..8 {
        i = say_link(rt, b, i)?;
    }
    Ok(())
}

// A member of the free chain, if it is one, and the next.
fn say_link(rt: &impl Print, b: &[u8], i: u32) -> io::Result<u32> {
    if i == 0 {
        return Ok(0);
    }
    say_number(rt, b"(", i)?;
    say(rt, b")")?;
    let at = place(b.len(), i);
    if at > b.len() {
        return Ok(0);
    }
    Ok(word(&b[at..], 124))
}

// The line of a request that marks, protects or gives back file id: sector 1's active and deleted files, the free chain, and the zones.
pub fn say_state(
    rt: &impl Print,
    step: &[u8],
    number: u32,
    id: u32,
    before: &[u8],
    after: &[u8],
) -> io::Result<()> {
    say(rt, step)?;
    say_number(rt, b" number=", number)?;
    say_number(rt, b" id=", id)?;
    if number == 0 {
        say_number(rt, b" active=", word(after, 1028))?;
        say_number(rt, b" deleted=", word(after, 1032))?;
        say_chain(rt, after)?;
        say_zones(rt, after)?;
    }
    say_books(rt, before, after)
}
