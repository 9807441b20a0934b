// How many sectors are in use.
ghost use Rattle.std.specs.Prelude.{◌≡◌, length};
ghost use Rattle.requests.specs.Space.{used_sectors};

use field::runs::count_bits;
use tables::books::Books;
use tables::sizes::ZONE;

pub fn used_sectors(b: &Books<'_>) -> u32
    ensures { result ≡ used_sectors b.now.places b.now.raw.now }
{
    let sectors = ZONE * b.places.zones;
    count_bits(b.raw, b.places.sectortable, 0, sectors as usize)
}
