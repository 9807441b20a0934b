// Dates: year (two bytes), month, day, hour, minute.
ghost use Rattle.field.specs.Says.{Says};
ghost use Rattle.tables.specs.Dates.{Date};

use field::numbers::get_u16;

pub fn date_valid(d: &[u8]) -> bool
    ensures { Says result (Date d.now) }
{
    d.len() == 6
        && (1..=9999).contains(&get_u16(d, 0))
        && (1..=12).contains(&d[2])
        && (1..=31).contains(&d[3])
        && d[4] <= 23
        && d[5] <= 59
}
