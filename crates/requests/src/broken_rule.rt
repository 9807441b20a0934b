// Which rule the card breaks: the lowest rule that is broken, and in it the lowest place. The books need not be mounted.
ghost use Rattle.requests.specs.Diagnosis.{Diagnosed};

use examination::broken::lowest_fault;
use examination::check::find_tables;
use examination::fault::Fault;
use tables::books::Books;
use tables::refusal::Refusal;

pub fn broken_rule(b: &[u8], withheld: &[u32]) -> Result<Option<Fault>, Refusal>
    ensures { Diagnosed b.now withheld.now result }
{
    let p = find_tables(b, withheld)?;
    Ok(lowest_fault(&Books { raw: b, places: p }, withheld))
}
