// The examination rule by rule: the first rule that fails, and the lowest place where it does.
ghost use Rattle.std.specs.Prelude.{length};
ghost use Rattle.tables.specs.Views.{books_view};
ghost use Rattle.tables.specs.Withheld.{Withholds};
ghost use Rattle.tables.specs.Rules.R6.{R6};
ghost use Rattle.examination.specs.Examined.{PlacedAt};
ghost use Rattle.examination.specs.Rulings.{zone_rulings, index_rulings, file_rulings, rulings};
ghost use Rattle.examination.specs.Faults.{NamesFault};

use crate::chains::rule5_place;
use crate::counts::rule9;
use crate::fault::Fault;
use crate::files::rule8;
use crate::free::{free_chain, own_bytes};
use crate::owned::rule7;
use crate::pointers::rule6;
use crate::tails::rule1_place;
use crate::zones::{rule2, rule3};
use tables::books::Books;
use tables::kinds::{Index, Sector, Zone};

// Rules R1 to R3.
fn zone_fault(b: &Books<'_>) -> Option<Fault>
    requires { PlacedAt b.now.raw.now b.now.places }
    ensures { NamesFault (zone_rulings b.now.places b.now.raw.now) result }
{
    if let Some(s) = rule1_place(b) {
        return Some(Fault::AtSector(1, Sector(s)));
    }
    // By a name, so that the goal of this way out keeps its own whatever rule is asked: the edit `rules_exchanged` has to be refused for the rule.
    let entry = rule2(b);
    if let Some(z) = entry {
        return Some(Fault::AtZone(2, Zone(z)));
    }
    let z = rule3(b)?;
    Some(Fault::AtZone(3, Zone(z)))
}

// Rules R4 to R6.
fn index_fault(b: &Books<'_>) -> Option<Fault>
    ensures { NamesFault (index_rulings b.now.places b.now.raw.now) result }
{
    if let Some(i) = own_bytes(b) {
        return Some(Fault::AtIndex(4, Index(i)));
    }
    if !free_chain(b) {
        return Some(Fault::AtCount(4));
    }
    if let Some(i) = rule5_place(b) {
        return Some(Fault::AtIndex(5, Index(i)));
    }
    let i = rule6(b)?;
    Some(Fault::AtIndex(6, Index(i)))
}

// Rules R7 to R9, once R6 holds.
fn file_fault(b: &Books<'_>, withheld: &[u32]) -> Option<Fault>
    requires r6 { R6 (books_view b.now) }
    requires withholds { Withholds (books_view b.now) withheld.now }
    ensures { NamesFault (file_rulings b.now.places b.now.raw.now withheld.now) result }
{
    if let Some(s) = rule7(b, withheld, true) {
        return Some(Fault::AtSector(7, Sector(s)));
    }
    if let Some(i) = rule8(b) {
        return Some(Fault::AtIndex(8, Index(i)));
    }
    if !rule9(b) {
        return Some(Fault::AtCount(9));
    }
    None
}

// All nine.
pub fn lowest_fault(b: &Books<'_>, withheld: &[u32]) -> Option<Fault>
    requires placed_at { PlacedAt b.now.raw.now b.now.places }
    requires withholds { Withholds (books_view b.now) withheld.now }
    ensures { NamesFault (rulings b.now.places b.now.raw.now withheld.now) result }
{
    if let Some(f) = zone_fault(b) {
        return Some(f);
    }
    if let Some(f) = index_fault(b) {
        return Some(f);
    }
    file_fault(b, withheld)
}
