// Create variable: an empty file with one block of the type that the cell names.
ghost use Rattle.std.specs.Prelude.{◌≡◌, Some, IfSome};
ghost use Rattle.std.specs.Option.{unwrap_or};
ghost use Rattle.field.specs.Says.{Says};
ghost use Rattle.tables.specs.Blocks.{DataType};
ghost use Rattle.requests.specs.Create.{cell_type, VariableAllowed, CreatedVariable};

use crate::argument::check_argument;
use crate::make::{make_file, new_file_valid};
use allocation::file::only_counts;
use tables::blocks::block_sectors;
use tables::entry::Size;
use tables::kinds::Index;
use tables::refusal::Refusal;
use tables::sizes::SECTOR;

// The type whose blocks have n bytes.
fn type_with(n: u32) -> Option<u32>
    ensures { (unwrap_or result 9 ≡ cell_type (Some n)) × IfSome result DataType }
{
    for t in 3..9 {
        if SECTOR * block_sectors(t) == n {
            return Some(t);
        }
    }
    None
}

// The type that a cell names.
fn cell_type(cell: Option<u32>) -> Option<u32>
    ensures { (unwrap_or result 9 ≡ cell_type cell) × IfSome result DataType }
{
    type_with(cell?)
}

fn variable_allowed(name: &[u8], cell: Option<u32>, kind: u32, date: &[u8]) -> bool
    ensures { Says result (VariableAllowed name.now cell kind date.now) }
{
    if !new_file_valid(name, kind, date) {
        return false;
    }
    cell_type(cell).is_some()
}

pub fn create_variable(
    b: &mut [u8],
    withheld: &[u32],
    name: &[u8],
    cell: Option<u32>,
    kind: u32,
    date: &[u8],
) -> Result<Index, Refusal>
    ensures { CreatedVariable b.old withheld.now name.now cell kind date.now result b.new }
{
    check_argument(b, withheld, variable_allowed(name, cell, kind, date))?;
    make_file(
        b,
        only_counts(cell_type(cell).unwrap(), 1),
        name,
        kind,
        date,
        0,
        Size::Variable,
    )
}
