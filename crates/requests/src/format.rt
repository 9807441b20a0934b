// Format: fresh books, whatever stood there.
ghost use Rattle.std.specs.Prelude.{◌≤◌};
ghost use Rattle.field.specs.Says.{Says};
ghost use Rattle.tables.specs.Refusals.{number_of};
ghost use Rattle.tables.specs.Gates.{Gate};
ghost use Rattle.tables.specs.Format.{Formattable, Writable, label_of};
ghost use Rattle.requests.specs.Format.{Fits, format_tests, Formatted};

use examination::check::{sized, stands};
use tables::date::date_valid;
use tables::format::{fresh_places, write_format};
use tables::label::Label;
use tables::refusal::Refusal;

// Are Z and N allowed, and is there room for their tables?
fn formattable(len: usize, z: u32, n: u32) -> bool
    requires { len ≤ 1048576 }
    ensures { Says result (Formattable len z n) }
{
    (3..=256).contains(&z) && (1..=4096).contains(&n) && stands(fresh_places(z, n), len)
}

fn fits(len: usize, zones: Option<u32>, indexes: Option<u32>) -> bool
    requires { len ≤ 1048576 }
    ensures { Says result (Fits len zones indexes) }
{
    match (zones, indexes) {
        (Some(z), Some(n)) => formattable(len, z, n),
        _ => false,
    }
}

// Is no text longer than its field, and the date valid?
fn writable(label: &Label<'_>) -> bool
    ensures { Says result (Writable (label_of label.now)) }
{
    if label.application.len() > 16 {
        return false;
    }
    if label.volume.len() > 32 {
        return false;
    }
    if label.owner.len() > 32 {
        return false;
    }
    if label.code.len() > 32 {
        return false;
    }
    date_valid(label.date)
}

fn check_format(
    b: &[u8],
    zones: Option<u32>,
    indexes: Option<u32>,
    label: &Label<'_>,
) -> Result<(), Refusal>
    ensures { Gate (format_tests b.now zones indexes (label_of label.now)) (number_of result) }
{
    if !sized(b) {
        return Err(Refusal::WrongLength);
    }
    if !fits(b.len(), zones, indexes) {
        return Err(Refusal::WrongLimits);
    }
    if !writable(label) {
        return Err(Refusal::BadArgument);
    }
    Ok(())
}

pub fn format(
    b: &mut [u8],
    zones: Option<u32>,
    indexes: Option<u32>,
    label: &Label<'_>,
) -> Result<(), Refusal>
    ensures { Formatted b.old zones indexes (label_of label.now) (number_of result) b.new }
{
    check_format(b, zones, indexes, label)?;
    write_format(b, zones.unwrap_or(0), indexes.unwrap_or(0), label);
    Ok(())
}
