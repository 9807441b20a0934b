// Space: how many sectors the volume has, and how many are in use.
ghost use Rattle.std.specs.Prelude.{◌≡◌};
ghost use Rattle.tables.specs.Books.{GoodSome};
ghost use Rattle.requests.specs.Space.{space_of, Spaced};

use crate::judged::judge;
use crate::used::used_sectors;
use tables::books::Books;
use tables::refusal::Refusal;
use tables::sizes::ZONE;

#[derive(Clone, Copy)]
pub struct Space {
    pub sectors: u32,
    pub used: u32,
}

fn measure(b: &Books<'_>) -> Space
    requires { GoodSome b.now.raw.now b.now.places }
    ensures { result ≡ space_of b.now.raw.now }
{
    Space {
        sectors: ZONE * b.places.zones,
        used: used_sectors(b),
    }
}

pub fn space_of(b: &[u8], withheld: &[u32]) -> Result<Space, Refusal>
    ensures { Spaced b.now withheld.now result }
{
    let p = judge(b, withheld, 0, Refusal::NotMounted)?;
    Ok(measure(&Books { raw: b, places: p }))
}
