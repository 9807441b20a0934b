// Which rule the books break, and where.
ghost use Rattle.std.specs.Prelude.{◌≡◌};
ghost use Rattle.examination.specs.Faults.{rule_of, place_kind_of, fault_place};

use tables::kinds::{Index, Sector, Zone};

// A rule, by the number that is its name, and the lowest place where it fails.
#[derive(Clone, Copy)]
pub enum Fault {
    AtZone(u32, Zone),
    AtSector(u32, Sector),
    AtIndex(u32, Index),
    // A rule about a chain or counts, which names no place.
    AtCount(u32),
}

// The three numbers of an answer: the rule, the kind of its place (0 nothing, 1 zone, 2 sector, 3 index, 4 count), and the place.
pub fn rule_of(found: Option<Fault>) -> u32
    ensures { result ≡ rule_of found }
{
    match found {
        None => 0,
        Some(Fault::AtZone(rule, _)) => rule,
        Some(Fault::AtSector(rule, _)) => rule,
        Some(Fault::AtIndex(rule, _)) => rule,
        Some(Fault::AtCount(rule)) => rule,
    }
}

pub fn place_kind_of(found: Option<Fault>) -> u32
    ensures { result ≡ place_kind_of found }
{
    match found {
        None => 0,
        Some(Fault::AtZone(_, _)) => 1,
        Some(Fault::AtSector(_, _)) => 2,
        Some(Fault::AtIndex(_, _)) => 3,
        Some(Fault::AtCount(_)) => 4,
    }
}

pub fn place_of(found: Option<Fault>) -> u32
    ensures { result ≡ fault_place found }
{
    match found {
        None => 0,
        Some(Fault::AtZone(_, z)) => z.0,
        Some(Fault::AtSector(_, s)) => s.0,
        Some(Fault::AtIndex(_, i)) => i.0,
        Some(Fault::AtCount(_)) => 0,
    }
}
