// Names of files: as they stand in a table, and as a create is given them.
ghost use Rattle.std.specs.Prelude.{◌≡◌, length};
ghost use Rattle.field.specs.Says.{Says};
ghost use Rattle.tables.specs.Names.{Name, NewName, Text, NewText};

use field::parts::bytes_all;

// The bytes of a name at most, and of its field.
pub const NAME: usize = 24;

// How many bytes stand before the field's first null, its length where there is none.
pub fn text_length(f: &[u8]) -> usize
    ensures { Text f.now result }
{
    f.iter().position(|c| *c == 0).unwrap_or(f.len())
}

// Is the field of 24 bytes a name: some bytes that are not null, then nulls?
pub fn name_valid(f: &[u8]) -> bool
    requires { length f.now ≡ 24 }
    ensures { Says result (Name f.now) }
{
    let n = text_length(f);
    n != 0 && bytes_all(f, n, NAME - n, 0)
}

// Is no byte null, '*' or '?'?
fn text_allowed(n: &[u8]) -> bool
    ensures { Says result (NewText n.now) }
{
    n.iter().all(|c| !matches!(*c, 0 | b'*' | b'?'))
}

// May a file be created under this name?
pub fn new_name_valid(n: &[u8]) -> bool
    ensures { Says result (NewName n.now) }
{
    (1..=NAME).contains(&n.len()) && text_allowed(n)
}
