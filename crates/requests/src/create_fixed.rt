// Create fixed: a file of a given size, in blocks of the chosen types.
ghost use Rattle.std.specs.Prelude.{◌≡◌};
ghost use Rattle.field.specs.Says.{Says};
ghost use Rattle.tables.specs.Counts.{Countable};
ghost use Rattle.requests.specs.Create.{FixedAllowed, counts_for, CreatedFixed, HasCounts};

use crate::argument::check_argument;
use crate::make::{make_file, new_file_valid};
use tables::counts::counts;
use tables::entry::Size;
use tables::kinds::Index;
use tables::refusal::Refusal;

// Is w a sum of the six weights, and n the size of a fixed file?
fn countable(w: u32, n: u32) -> bool
    ensures { Says result (Countable w n) }
{
    if w % 4 != 0 {
        return false;
    }
    if w < 4 {
        return false;
    }
    if w > 252 {
        return false;
    }
    if n > 2147483647 {
        return false;
    }
    n >= 1
}

// Have types and size counts?
fn have_counts(types: Option<u32>, size: Option<u32>) -> bool
    ensures { Says result (HasCounts types size) }
{
    match (types, size) {
        (Some(w), Some(n)) => countable(w, n),
        _ => false,
    }
}

fn fixed_allowed(name: &[u8], size: Option<u32>, types: Option<u32>, kind: u32, date: &[u8]) -> bool
    ensures { Says result (FixedAllowed name.now size types kind date.now) }
{
    if !new_file_valid(name, kind, date) {
        return false;
    }
    have_counts(types, size)
}

// The blocks of each type.
fn counts_for(types: Option<u32>, size: Option<u32>) -> [u32; 6]
    requires { HasCounts types size }
    ensures { result ≡ counts_for types size }
{
    counts(types.unwrap(), size.unwrap())
}

pub fn create_fixed(
    b: &mut [u8],
    withheld: &[u32],
    name: &[u8],
    size: Option<u32>,
    types: Option<u32>,
    kind: u32,
    date: &[u8],
) -> Result<Index, Refusal>
    ensures { CreatedFixed b.old withheld.now name.now size types kind date.now result b.new }
{
    check_argument(b, withheld, fixed_allowed(name, size, types, kind, date))?;
    make_file(
        b,
        counts_for(types, size),
        name,
        kind,
        date,
        size.unwrap_or(0),
        Size::Fixed,
    )
}
