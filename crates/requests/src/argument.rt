// The numbers that begin most requests: 1 to 5, and 7 for the arguments.
ghost use Rattle.std.specs.Prelude.{◌≡◌, true};
ghost use Rattle.tables.specs.Refusals.{number_of};
ghost use Rattle.tables.specs.Gates.{Gate};
ghost use Rattle.requests.specs.Answers.{argument_tests};

use crate::judged::check_use;
use tables::refusal::Refusal;

// Numbers 1 to 5, and 7.
pub fn check_argument(b: &[u8], withheld: &[u32], allowed: bool) -> Result<(), Refusal>
    ensures { Gate (argument_tests b.now withheld.now (allowed ≡ true)) (number_of result) }
{
    check_use(b, withheld)?;
    if !allowed {
        return Err(Refusal::BadArgument);
    }
    Ok(())
}
