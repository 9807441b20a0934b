// The books as readers are lent them: their bytes, and where the tables stand in them.
ghost use Rattle.std.specs.Prelude.{length};
ghost use Rattle.tables.specs.Places.{Layout};

use crate::places::Places;

// Every reader asks the same of the places, so the struct says it.
#[derive(Clone, Copy)]
pub struct Books<'a> {
    pub raw: &'a [u8],
    pub places: Places,
    pub ghost layout: { Layout places (length raw.now) },
}
