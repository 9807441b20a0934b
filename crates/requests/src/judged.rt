// The numbers that begin a request: the books are examined, then their flag.
ghost use Rattle.tables.specs.Gates.{Gate};
ghost use Rattle.tables.specs.Refusals.{number, number_of};
ghost use Rattle.requests.specs.Answers.{flag_tests, use_tests};
ghost use Rattle.requests.specs.Judged.{Judged};

use examination::check::check;
use tables::places::Places;
use tables::refusal::Refusal;
use tables::sector1::flag;

// Where the books' tables stand, or numbers 1 to 4, 7 for the withheld list, and the refusal given where the flag is f.
pub fn judge(b: &[u8], withheld: &[u32], f: u32, refusal: Refusal) -> Result<Places, Refusal>
    ensures { Judged (flag_tests f (number refusal) b.now withheld.now) b.now result }
{
    let p = check(b, withheld)?;
    if flag(b) == f {
        return Err(refusal);
    }
    Ok(p)
}

// Numbers 1 to 5, 7 for the withheld list among them.
pub fn check_use(b: &[u8], withheld: &[u32]) -> Result<(), Refusal>
    ensures { Gate (use_tests b.now withheld.now) (number_of result) }
{
    judge(b, withheld, 0, Refusal::NotMounted)?;
    Ok(())
}
