// Is there room for blocks, and are there tables for their pointers?
ghost use Rattle.std.specs.Prelude.{◌≤◌};
ghost use Rattle.tables.specs.Refusals.{number_of};
ghost use Rattle.tables.specs.Gates.{Gate};
ghost use Rattle.tables.specs.Books.{GoodSome};
ghost use Rattle.requests.specs.Create.{room_tests};

use allocation::plan::tables_for;
use allocation::tail::Tail;
use tables::books::Books;
use tables::refusal::Refusal;
use tables::room::room;
use tables::sector1::free_indexes;

// Numbers 12 and 13, for blocks of these counts after l.
pub fn check_room(b: &Books<'_>, l: Tail, counts: [u32; 6]) -> Result<(), Refusal>
    requires good_some { GoodSome b.now.raw.now b.now.places }
    requires count_bound { (l.last.count ≤ 32767) × (l.tables ≤ 1) }
    ensures { Gate (room_tests b.now.places b.now.raw.now l counts) (number_of result) }
{
    if !room(b, counts) {
        return Err(Refusal::NoRoom);
    }
    if tables_for(b, l, counts) > free_indexes(b.raw) as u64 {
        return Err(Refusal::NoTables);
    }
    Ok(())
}
