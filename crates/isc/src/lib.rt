// The C interface: each function takes its numbers and slices, calls one request, and hands back the number and the values.
#![tactic(auto)]

ghost use Rattle.std.specs.Prelude.{◌≡◌, ◌≤◌, length};
ghost use Rattle.field.specs.Parts.{over};
ghost use Rattle.tables.specs.Counts.{chosen_types};
ghost use Rattle.tables.specs.Gates.{Gate};
ghost use Rattle.tables.specs.Refusals.{number_of};
ghost use Rattle.requests.specs.Amounts.{amount_of};
ghost use Rattle.requests.specs.Answers.{value_of};
ghost use Rattle.requests.specs.Create.{id_value, CreatedFixed, CreatedVariable};
ghost use Rattle.requests.specs.Delete.{Deleted};
ghost use Rattle.requests.specs.Format.{Formatted};
ghost use Rattle.requests.specs.Grow.{Grew};
ghost use Rattle.requests.specs.Header.{HeaderPlaced, show_header_tests, HeaderShownAt};
ghost use Rattle.requests.specs.Listing.{Listed};
ghost use Rattle.requests.specs.Mount.{Mounted, Dismounted};
ghost use Rattle.requests.specs.Read.{ReadOut};
ghost use Rattle.requests.specs.Search.{Searched};
ghost use Rattle.requests.specs.Show.{show_tests, ShownAt};
ghost use Rattle.requests.specs.State.{Removed, Recovered, Protected};
ghost use Rattle.requests.specs.Write.{Wrote};
ghost use Rattle.isc.specs.Border.{asked, AnswerOut, CreateOut, LocateOut, SpaceOut, BrokenOut, TextOut, ReportLines, BrokenLines};

use examination::fault::{place_kind_of, place_of, rule_of};
use field::parts::copy;
use requests::actual_delete::actual_delete;
use requests::amount::amount_of;
use requests::broken_rule::broken_rule;
use requests::broken_text::broken_text;
use requests::create_fixed::create_fixed;
use requests::create_variable::create_variable;
use requests::dismount::dismount;
use requests::format::format;
use requests::grow::grow;
use requests::kinds::{Index, Sector};
use requests::label::Label;
use requests::list::list;
use requests::locate::locate;
use requests::mount::mount;
use requests::place_header::place_header;
use requests::read::read;
use requests::recover::recover;
use requests::refusal::Refusal;
use requests::report::{Text, report};
use requests::search::search;
use requests::set_protection::set_protection;
use requests::show::{Part, check_show, show_part};
use requests::show_header::{check_header, header_part};
use requests::space::{Space, space_of};
use requests::temporary_delete::temporary_delete;
use requests::write::write;
use tables::counts::chosen_types;

// The number of an answer, 0 where it is done.
fn number_of<T: Copy>(answer: Result<T, Refusal>) -> u32
    ensures { result ≡ number_of answer }
{
    match answer {
        Ok(_) => 0,
        Err(why) => why.number(),
    }
}

#[unsafe(no_mangle)]
pub extern "C" fn isc_format(
    books: &mut [u8],
    zones: i32,
    indexes: i32,
    application: &[u8],
    volume: &[u8],
    id: u32,
    owner: &[u8],
    code: &[u8],
    date: &[u8],
) -> u32
    ensures { Formatted books.old (amount_of zones) (amount_of indexes) (record { application = application.now; volume = volume.now; id = id; owner = owner.now; code = code.now; date = date.now }) result books.new }
{
    let z = amount_of(zones);
    let n = amount_of(indexes);
    let label = Label {
        application,
        volume,
        id,
        owner,
        code,
        date,
    };
    number_of(format(books, z, n, &label))
}

#[unsafe(no_mangle)]
pub extern "C" fn isc_mount(books: &mut [u8], withheld: &[u32]) -> u32
    ensures { Mounted books.old withheld.now result books.new }
{
    number_of(mount(books, withheld))
}

#[unsafe(no_mangle)]
pub extern "C" fn isc_dismount(books: &mut [u8], withheld: &[u32]) -> u32
    ensures { Dismounted books.old withheld.now result books.new }
{
    number_of(dismount(books, withheld))
}

// Hands back what a create answers.
fn hand_back_id(made: Result<Index, Refusal>, id: &mut u32) -> u32
    ensures { (result ≡ number_of made) × (id.new ≡ id_value made) }
{
    *id = made.unwrap_or(Index(0)).0;
    number_of(made)
}

#[unsafe(no_mangle)]
pub extern "C" fn isc_create_fixed(
    books: &mut [u8],
    withheld: &[u32],
    name: &[u8],
    size: i32,
    flag: i32,
    kind: u32,
    date: &[u8],
    id: &mut u32,
) -> u32
    ensures { CreateOut (λ answer. CreatedFixed books.old withheld.now name.now (amount_of size) (chosen_types flag) kind date.now answer books.new) result id.new }
{
    let made = create_fixed(
        books,
        withheld,
        name,
        amount_of(size),
        chosen_types(flag),
        kind,
        date,
    );
    hand_back_id(made, id)
}

#[unsafe(no_mangle)]
pub extern "C" fn isc_create_variable(
    books: &mut [u8],
    withheld: &[u32],
    name: &[u8],
    cell: i32,
    kind: u32,
    date: &[u8],
    id: &mut u32,
) -> u32
    ensures { CreateOut (λ answer. CreatedVariable books.old withheld.now name.now (amount_of cell) kind date.now answer books.new) result id.new }
{
    let made = create_variable(books, withheld, name, amount_of(cell), kind, date);
    hand_back_id(made, id)
}

#[unsafe(no_mangle)]
pub extern "C" fn isc_grow(
    books: &mut [u8],
    withheld: &[u32],
    id: u32,
    length: i32,
    date: &[u8],
) -> u32
    ensures { Grew books.old withheld.now id (amount_of length) date.now result books.new }
{
    number_of(grow(books, withheld, id, amount_of(length), date))
}

#[unsafe(no_mangle)]
pub extern "C" fn isc_temporary_delete(
    books: &mut [u8],
    withheld: &[u32],
    body: &mut [u8],
    id: u32,
    date: &[u8],
) -> u32
    ensures { Removed books.old withheld.now body.old id date.now result books.new body.new }
{
    number_of(temporary_delete(books, withheld, body, id, date))
}

#[unsafe(no_mangle)]
pub extern "C" fn isc_recover(
    books: &mut [u8],
    withheld: &[u32],
    body: &mut [u8],
    id: u32,
    date: &[u8],
) -> u32
    ensures { Recovered books.old withheld.now body.old id date.now result books.new body.new }
{
    number_of(recover(books, withheld, body, id, date))
}

#[unsafe(no_mangle)]
pub extern "C" fn isc_actual_delete(
    books: &mut [u8],
    withheld: &[u32],
    body: &mut [u8],
    id: u32,
    date: &[u8],
) -> u32
    ensures { Deleted books.old withheld.now body.old id date.now result books.new body.new }
{
    number_of(actual_delete(books, withheld, body, id, date))
}

#[unsafe(no_mangle)]
pub extern "C" fn isc_set_protection(
    books: &mut [u8],
    withheld: &[u32],
    id: u32,
    protection: u32,
    date: &[u8],
) -> u32
    ensures { Protected books.old withheld.now id protection date.now result books.new }
{
    number_of(set_protection(books, withheld, id, protection, date))
}

// Hands back an answer with one value.
fn hand_back(answer: Result<u32, Refusal>, value: &mut u32) -> u32
    ensures { (result ≡ number_of answer) × (value.new ≡ value_of answer) }
{
    *value = answer.unwrap_or(0);
    number_of(answer)
}

#[unsafe(no_mangle)]
pub extern "C" fn isc_search(
    books: &[u8],
    withheld: &[u32],
    pattern: &[u8],
    ids: &mut [u32],
    count: &mut u32,
) -> u32
    ensures { AnswerOut (λ answer. Searched books.now withheld.now pattern.now ids.old answer ids.new) result count.new }
{
    let answer = search(books, withheld, pattern, ids);
    hand_back(answer, count)
}

#[unsafe(no_mangle)]
pub extern "C" fn isc_list(
    books: &[u8],
    withheld: &[u32],
    from: u32,
    entries: &mut [u8],
    count: &mut u32,
) -> u32
    ensures { AnswerOut (λ answer. Listed books.now withheld.now from entries.old answer entries.new) result count.new }
{
    let answer = list(books, withheld, from, entries);
    hand_back(answer, count)
}

#[unsafe(no_mangle)]
pub extern "C" fn isc_locate(
    books: &[u8],
    withheld: &[u32],
    id: u32,
    k: u32,
    sector: &mut u32,
) -> u32
    ensures { LocateOut books.now withheld.now id k result sector.new }
{
    let found = locate(books, withheld, id, k);
    *sector = found.unwrap_or(Sector(0)).0;
    number_of(found)
}

#[unsafe(no_mangle)]
pub extern "C" fn isc_space(
    books: &[u8],
    withheld: &[u32],
    sectors: &mut u32,
    used: &mut u32,
) -> u32
    ensures { SpaceOut books.now withheld.now result sectors.new used.new }
{
    let found = space_of(books, withheld);
    let space = found.unwrap_or(Space {
        sectors: 0,
        used: 0,
    });
    *sectors = space.sectors;
    *used = space.used;
    number_of(found)
}

// Hands back a text that has room.
fn hand_back_text(t: &Text, text: &mut [u8], count: &mut u32) -> u32
    requires { length t.now ≤ length text.old }
    ensures { (result ≡ 0) × (text.new ≡ over text.old 0 t.now) × (count.new ≡ length t.now) }
{
    let bytes = t.as_bytes();
    copy(text, 0, bytes);
    *count = bytes.len() as u32;
    0
}

#[unsafe(no_mangle)]
pub extern "C" fn isc_report(
    books: &[u8],
    withheld: &[u32],
    text: &mut [u8],
    length: &mut u32,
) -> u32
    ensures { TextOut 192 (ReportLines books.now withheld.now) text.old result text.new length.new }
{
    if text.len() < 192 {
        *length = 0;
        return 7;
    }
    let t = report(books, withheld);
    hand_back_text(&t, text, length)
}

#[unsafe(no_mangle)]
pub extern "C" fn isc_broken_rule(
    books: &[u8],
    withheld: &[u32],
    rule: &mut u32,
    kind: &mut u32,
    place: &mut u32,
) -> u32
    ensures { BrokenOut books.now withheld.now result rule.new kind.new place.new }
{
    let found = broken_rule(books, withheld);
    let fault = found.unwrap_or(None);
    *rule = rule_of(fault);
    *kind = place_kind_of(fault);
    *place = place_of(fault);
    number_of(found)
}

#[unsafe(no_mangle)]
pub extern "C" fn isc_broken_text(
    books: &[u8],
    withheld: &[u32],
    text: &mut [u8],
    length: &mut u32,
) -> u32
    ensures { TextOut 64 (BrokenLines books.now withheld.now) text.old result text.new length.new }
{
    if text.len() < 64 {
        *length = 0;
        return 7;
    }
    let t = broken_text(books, withheld);
    hand_back_text(&t, text, length)
}

#[unsafe(no_mangle)]
pub extern "C" fn isc_read(
    books: &[u8],
    withheld: &[u32],
    body: &[u8],
    id: u32,
    position: i32,
    length: i32,
    exchange: u32,
    out: &mut [u8],
    moved: &mut u32,
) -> u32
    ensures { AnswerOut (λ answer. ReadOut books.now withheld.now body.now id (amount_of position) (amount_of length) (asked exchange) out.old answer out.new) result moved.new }
{
    let at = amount_of(position);
    let long = amount_of(length);
    let answer = read(books, withheld, body, id, at, long, exchange != 0, out);
    hand_back(answer, moved)
}

#[unsafe(no_mangle)]
pub extern "C" fn isc_write(
    books: &mut [u8],
    withheld: &[u32],
    body: &mut [u8],
    id: u32,
    position: i32,
    length: i32,
    exchange: u32,
    input: &[u8],
    date: &[u8],
    moved: &mut u32,
) -> u32
    ensures { AnswerOut (λ answer. Wrote books.old withheld.now body.old id (amount_of position) (amount_of length) (asked exchange) input.now date.now answer books.new body.new) result moved.new }
{
    let at = amount_of(position);
    let long = amount_of(length);
    let answer = write(
        books,
        withheld,
        body,
        id,
        at,
        long,
        exchange != 0,
        input,
        date,
    );
    hand_back(answer, moved)
}

#[unsafe(no_mangle)]
pub extern "C" fn isc_show_place(
    books: &[u8],
    withheld: &[u32],
    body: &[u8],
    id: u32,
    k: u32,
) -> Part
    ensures { ShownAt books.now withheld.now body.now id k result }
{
    show_part(books, withheld, body, id, k)
}

#[unsafe(no_mangle)]
pub extern "C" fn isc_show_number(
    books: &[u8],
    withheld: &[u32],
    body: &[u8],
    id: u32,
    k: u32,
) -> u32
    ensures { Gate (show_tests books.now withheld.now body.now id k) result }
{
    number_of(check_show(books, withheld, body, id, k))
}

#[unsafe(no_mangle)]
pub extern "C" fn isc_place_header(
    books: &mut [u8],
    withheld: &[u32],
    body: &mut [u8],
    id: u32,
    content: &[u8],
    date: &[u8],
) -> u32
    ensures { HeaderPlaced books.old withheld.now body.old id content.now date.now result books.new body.new }
{
    number_of(place_header(books, withheld, body, id, content, date))
}

// A header: where it lies, as isc_show_place hands back a sector's place.
#[unsafe(no_mangle)]
pub extern "C" fn isc_header_place(books: &[u8], withheld: &[u32], body: &[u8], id: u32) -> Part
    ensures { HeaderShownAt books.now withheld.now body.now id result }
{
    header_part(books, withheld, body, id)
}

#[unsafe(no_mangle)]
pub extern "C" fn isc_header_number(books: &[u8], withheld: &[u32], body: &[u8], id: u32) -> u32
    ensures { Gate (show_header_tests books.now withheld.now body.now id) result }
{
    number_of(check_header(books, withheld, body, id))
}
