// Dismount: the flag becomes 0.
ghost use Rattle.tables.specs.Refusals.{number_of};
ghost use Rattle.requests.specs.Mount.{Dismounted};

use crate::judged::check_use;
use tables::refusal::Refusal;
use tables::sector1::put_flag;

pub fn dismount(b: &mut [u8], withheld: &[u32]) -> Result<(), Refusal>
    ensures { Dismounted b.old withheld.now (number_of result) b.new }
{
    check_use(b, withheld)?;
    put_flag(b, 0);
    Ok(())
}
