// Mount: the flag becomes 1.
ghost use Rattle.tables.specs.Refusals.{number_of};
ghost use Rattle.requests.specs.Mount.{Mounted};

use crate::judged::judge;
use tables::refusal::Refusal;
use tables::sector1::put_flag;

pub fn mount(b: &mut [u8], withheld: &[u32]) -> Result<(), Refusal>
    ensures { Mounted b.old withheld.now (number_of result) b.new }
{
    judge(b, withheld, 1, Refusal::AlreadyMounted)?;
    put_flag(b, 1);
    Ok(())
}
