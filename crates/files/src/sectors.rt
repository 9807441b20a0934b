// Sectors moved between a buffer and the body, one at a time, along the file's pointers.
ghost use Rattle.std.specs.Prelude.{◌≡◌, ◌+◌, ◌-◌, ◌*◌, ◌≤◌, length};
ghost use Rattle.tables.specs.Lawful.{LawfulSome};
ghost use Rattle.tables.specs.Views.{books_view};
ghost use Rattle.files.specs.Spots.{spot_start};
ghost use Rattle.files.specs.Asked.{OnSector};
ghost use Rattle.files.specs.Moves.{exchanged, moved, body_place, filled, fetched, Movable};

use crate::spot::{Spot, onward, sector_of, seek};
use field::parts::copy;
use tables::books::Books;
use tables::kinds::{Index, Sector};
use tables::sizes::{SECTOR_LEN, ZONE};

// The sectors of zone 1, for which the body has no room.
const FIRST_ZONE: usize = ZONE as usize;

// The byte pairs of a sector.
const PAIRS: usize = SECTOR_LEN / 2;

// Byte pairs exchanged.
fn exchange_sector(dst: &mut [u8], src: &[u8])
    requires { (length dst.old ≡ 1024) × (length src.now ≡ 1024) }
    ensures { dst.new ≡ exchanged src.now }
{
    for k in 0..PAIRS {
        let j = 2 * k;
        dst[j] = src[j + 1];
        dst[j + 1] = src[j];
    }
}

// The copy leaf: it sees one sector of each side. Whether pairs are exchanged is an argument of the C interface, known when a request runs.
fn move_sector(dst: &mut [u8], src: &[u8], exchange: bool)
    requires { (length dst.old ≡ 1024) × (length src.now ≡ 1024) }
    ensures { dst.new ≡ moved exchange src.now }
{
    if exchange {
        exchange_sector(dst, src);
        return;
    }
    copy(dst, 0, src);
}

// Where the sector begins in the body, which has no room for zone 1.
pub fn body_place(s: Sector) -> usize
    requires { 1024 ≤ s.0 }
    ensures { result ≡ body_place s.0 }
{
    SECTOR_LEN * (s.0 as usize - FIRST_ZONE)
}

// Where the spot's sector begins in the body.
fn spot_place(b: &Books<'_>, c: Spot) -> usize
    requires on_sector { OnSector (books_view b.now) c }
    ensures { (result ≡ body_place (spot_start (books_view b.now) c + c.off)) × (result + 1024 ≤ 1048576 * (b.now.places.zones - 2)) }
{
    body_place(sector_of(b, c))
}

// Writes n sectors of the input to the body, from the k-th sector of file f on.
pub fn write_sectors(
    b: &Books<'_>,
    f: Index,
    k: u32,
    n: u32,
    exchange: bool,
    input: &[u8],
    body: &mut [u8],
)
    requires lawful_some { LawfulSome b.now.places b.now.raw.now }
    requires movable { Movable (books_view b.now) f.0 k n (length input.now) (length body.old) }
    ensures { body.new ≡ filled (books_view b.now) f.0 k exchange input.now body.old n }
{
    let mut c = seek(b, f, k);
    for i in 0..n {
        let a = spot_place(b, c);
        let e = a + SECTOR_LEN;
        let from = SECTOR_LEN * (i as usize);
        let to = from + SECTOR_LEN;
        move_sector(&mut body[a..e], &input[from..to], exchange);
        c = onward(b, c);
    }
}

// Reads n sectors from the body to the output, from the k-th sector of file f on. It and the function above differ in the side that is written: one
// for both takes a trait and two structs with the lent sides, which are more than its loop.
pub fn read_sectors(
    b: &Books<'_>,
    f: Index,
    k: u32,
    n: u32,
    exchange: bool,
    body: &[u8],
    out: &mut [u8],
)
    requires lawful_some { LawfulSome b.now.places b.now.raw.now }
    requires movable { Movable (books_view b.now) f.0 k n (length out.old) (length body.now) }
    ensures { out.new ≡ fetched (books_view b.now) f.0 k exchange body.now out.old n }
{
    let mut c = seek(b, f, k);
    for i in 0..n {
        let a = spot_place(b, c);
        let e = a + SECTOR_LEN;
        let from = SECTOR_LEN * (i as usize);
        let to = from + SECTOR_LEN;
        move_sector(&mut out[from..to], &body[a..e], exchange);
        c = onward(b, c);
    }
}
