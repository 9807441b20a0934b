// The examination that every request makes first: numbers 1 to 3, 7 for the withheld list, and 4.
ghost use Rattle.std.specs.Prelude.{◌≤◌, length};
ghost use Rattle.field.specs.Says.{Says};
ghost use Rattle.tables.specs.Views.{books_view};
ghost use Rattle.tables.specs.Rules.R1.{Stand};
ghost use Rattle.tables.specs.Rules.R6.{R6};
ghost use Rattle.tables.specs.Withheld.{Withholds};
ghost use Rattle.tables.specs.Lawful.{Lawful};
ghost use Rattle.examination.specs.Halves.{TablesHold, FilesHold};
ghost use Rattle.tables.specs.Books.{Sized, Marked, Limits};
ghost use Rattle.examination.specs.Examined.{PlacesFound, ListAllowed, Examined};

use crate::children::rule5;
use crate::counts::rule9;
use crate::files::rule8;
use crate::free::{free_chain, own_bytes};
use crate::owned::rule7;
use crate::pointers::rule6;
use crate::tails::tails_null;
use crate::zones::{rule2, rule3};
use marks::withheld::withholds;
use tables::books::Books;
use tables::places::{Places, read_places};
use tables::refusal::Refusal;
use tables::sizes::{ENTRY_LEN, ROUND_UP_LEN, SECTOR, SECTOR_LEN, TABLE, ZONE};
use tables::{sector0, sector1};

// 1: S sectors of 1,024 bytes, S from 5 to 1,024.
pub fn sized(b: &[u8]) -> bool
    ensures { Says result (Sized b.now) }
{
    b.len() % SECTOR_LEN == 0 && 5120 <= b.len() && b.len() <= 1048576
}

// 2: the mark and the version.
fn marked(b: &[u8]) -> bool
    requires { Sized b.now }
    ensures { Says result (Marked b.now) }
{
    sector0::mark(b) == sector0::MARK && sector0::version(b) == sector0::VERSION
}

// 3, the numbers: Z, N, 1024, 1024, 128.
fn limits(b: &[u8]) -> bool
    requires { Sized b.now }
    ensures { Says result (Limits b.now) }
{
    let zones = sector0::zones(b);
    let indexes = sector1::indexes(b);
    3 <= zones
        && zones <= 256
        && 1 <= indexes
        && indexes <= 4096
        && sector0::sectors_per_zone(b) == ZONE
        && sector0::bytes_per_sector(b) == SECTOR
        && sector0::index_size(b) == TABLE
}

// 3, R1's places: in order from sector 2 on, without overlap, within the books.
pub fn stands(p: Places, len: usize) -> bool
    requires { (p.zones ≤ 256) × (p.indexes ≤ 4096) × (len ≤ 1048576) }
    ensures { Says result (Stand p len) }
{
    let zones = p.zones as usize;
    let indexes = p.indexes as usize;
    let entries = SECTOR_LEN * ((ENTRY_LEN * zones + ROUND_UP_LEN) / SECTOR_LEN);
    2048 <= p.zonetable
        && p.zonetable <= len
        && p.sectortable <= len
        && p.indextable <= len
        && p.zonetable + entries <= p.sectortable
        && p.sectortable + SECTOR_LEN * ((zones + 7) / 8) <= p.indextable
        && p.indextable + SECTOR_LEN * ((indexes + 7) / 8) <= len
}

// Rules R1 to R5.
fn tables_hold(b: &Books<'_>) -> bool
    requires stand { Stand b.now.places (length b.now.raw.now) }
    ensures { Says result (TablesHold b.now.places b.now.raw.now) }
{
    tails_null(b)
        && rule2(b).is_none()
        && rule3(b).is_none()
        && own_bytes(b).is_none()
        && free_chain(b)
        && rule5(b)
}

// Rules R7 to R9, once R6 holds.
fn files_hold(b: &Books<'_>, withheld: &[u32]) -> bool
    requires r6 { R6 (books_view b.now) }
    requires withholds { Withholds (books_view b.now) withheld.now }
    ensures { Says result (FilesHold b.now.places b.now.raw.now withheld.now) }
{
    rule7(b, withheld, false).is_none() && rule8(b).is_none() && rule9(b)
}

// 4: all nine rules.
fn rules_hold(b: &Books<'_>, withheld: &[u32]) -> bool
    requires stand { Stand b.now.places (length b.now.raw.now) }
    requires withholds { Withholds (books_view b.now) withheld.now }
    ensures { Says result (Lawful b.now.places b.now.raw.now withheld.now) }
{
    tables_hold(b) && rule6(b).is_none() && files_hold(b, withheld)
}

// Numbers 1 to 3: where the tables stand.
fn find_places(b: &[u8]) -> Result<Places, Refusal>
    ensures { PlacesFound b.now result }
{
    if !sized(b) {
        return Err(Refusal::WrongLength);
    }
    if !marked(b) {
        return Err(Refusal::WrongMark);
    }
    if !limits(b) {
        return Err(Refusal::WrongLimits);
    }
    let p = read_places(b);
    if !stands(p, b.len()) {
        return Err(Refusal::WrongLimits);
    }
    Ok(p)
}

// Then 7: whether the withheld list is one that these tables allow.
pub fn find_tables(b: &[u8], withheld: &[u32]) -> Result<Places, Refusal>
    ensures { ListAllowed b.now withheld.now result }
{
    let p = find_places(b)?;
    if !withholds(&Books { raw: b, places: p }, withheld) {
        return Err(Refusal::BadArgument);
    }
    Ok(p)
}

// Then 4: the places of lawful books.
pub fn check(b: &[u8], withheld: &[u32]) -> Result<Places, Refusal>
    ensures { Examined b.now withheld.now result }
{
    let p = find_tables(b, withheld)?;
    if !rules_hold(&Books { raw: b, places: p }, withheld) {
        return Err(Refusal::BrokenRule);
    }
    Ok(p)
}
