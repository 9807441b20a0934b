// A header's bytes laid in the body, and the first four of them written anew.
ghost use Rattle.std.specs.Prelude.{◌≡◌, ◌+◌, ◌*◌, ◌≤◌, length};
ghost use Rattle.field.specs.Parts.{over};
ghost use Rattle.tables.specs.Indexes.{table_at};
ghost use Rattle.tables.specs.Views.{books_view};
ghost use Rattle.files.specs.HeaderBytes.{header_sectors, header_bytes, header_marked, HeaderInBody};

use crate::sectors::body_place;
use field::numbers::{put_u16, put_u32};
use field::parts::{copy, fill};
use tables::books::Books;
use tables::index::{HEADER, pointer_at, table};
use tables::kinds::Index;
use tables::sizes::{ROUND_UP_LEN, SECTOR_LEN};

// Where the length of the data and the data begin in a header; the file's id stands first.
const LENGTH: usize = 4;

const DATA: usize = 6;

// The sectors that a header with so many bytes of data takes.
pub fn header_sectors(long: usize) -> u32
    requires { long ≤ 32762 }
    ensures { (result ≡ header_sectors long) × (1 ≤ result) × (result ≤ 32) }
{
    ((DATA + long + ROUND_UP_LEN) / SECTOR_LEN) as u32
}

// Writes the header of file f: it sees the header's part of the body alone.
fn put_header(part: &mut [u8], f: Index, bytes: &[u8])
    requires part_len { length part.old ≡ 1024 * header_sectors (length bytes.now) }
    requires bytes_len_bound { length bytes.now ≤ 32762 }
    ensures { part.new ≡ header_bytes f.0 bytes.now }
{
    let n = part.len();
    fill(part, 0, n, 0);
    put_u32(part, 0, f.0);
    put_u16(part, LENGTH, bytes.len() as u32);
    copy(part, DATA, bytes);
}

// Writes the header of file f to the body, from byte `at` on.
pub fn lay_header(body: &mut [u8], at: usize, f: Index, bytes: &[u8])
    requires bytes_in_bounds { at + 1024 * header_sectors (length bytes.now) ≤ length body.old }
    requires bytes_len_bound { length bytes.now ≤ 32762 }
    ensures { body.new ≡ over body.old at (header_bytes f.0 bytes.now) }
{
    let end = at + SECTOR_LEN * (header_sectors(bytes.len()) as usize);
    put_header(&mut body[at..end], f, bytes);
}

// Writes w for the first four bytes of the header of file f, where it has one.
pub fn mark_header(b: &Books<'_>, f: Index, w: u32, body: &mut [u8])
    requires le_f { (1 ≤ f.0) × (f.0 ≤ b.now.places.indexes) }
    requires header_in_body { HeaderInBody (table_at b.now.places b.now.raw.now f.0) (length body.old) }
    ensures { body.new ≡ header_marked (books_view b.now) f.0 w body.old }
{
    let q = pointer_at(table(b, f), HEADER);
    if q.count == 0 {
        return;
    }
    put_u32(body, body_place(q.start), w);
}
