// Where a file's pointers end, and a block after that end.
ghost use Rattle.std.specs.Prelude.{◌≡◌, ◌≤◌, ◌<◌};
ghost use Rattle.allocation.specs.NextPointer.{end_sector, joins, push, tail_of, no_pointer};

use tables::index::Pointer;
use tables::kinds::Sector;

// The last pointer, how many pointers its table has used, for how many it has room, and the tables taken.
#[derive(Clone, Copy)]
pub struct Tail {
    pub last: Pointer,
    pub slot: usize,
    pub capacity: usize,
    pub tables: u64,
}

// The tail with a block more, and how it got there, which says where the pointer is written.
#[derive(Clone, Copy)]
pub enum Pushed {
    // The last pointer is longer.
    Joined(Tail),
    // A pointer of its own, in the same table.
    Beside(Tail),
    // A pointer of its own, the first of a further child.
    Further(Tail),
}

pub fn tail_of(r: Pushed) -> Tail
    ensures { result ≡ tail_of r }
{
    match r {
        Pushed::Joined(l) | Pushed::Beside(l) | Pushed::Further(l) => l,
    }
}

// The sector behind the last pointer's last.
pub fn end_sector(l: Tail) -> u64
    ensures { result ≡ end_sector l }
{
    l.last.start.0 as u64 + l.last.count as u64
}

fn joins_last(l: Tail, s: Sector, size: u32) -> bool
    requires { (l.last.count ≤ 32767) × (size ≤ 1024) }
    ensures { result ≡ joins l s.0 size }
{
    end_sector(l) == s.0 as u64 && l.last.count + size <= 32767
}

// The tail with a block of `size` sectors from s on after it.
pub fn push_block(l: Tail, s: Sector, size: u32) -> Pushed
    requires { (l.last.count ≤ 32767) × (l.tables < 1099511627776) × (size ≤ 1024) }
    ensures { result ≡ push l s.0 size }
{
    if joins_last(l, s, size) {
        let last = Pointer {
            count: l.last.count + size,
            ..l.last
        };
        return Pushed::Joined(Tail { last, ..l });
    }
    let last = Pointer {
        start: s,
        count: size,
    };
    if l.slot < l.capacity {
        let slot = l.slot + 1;
        return Pushed::Beside(Tail { last, slot, ..l });
    }
    Pushed::Further(Tail {
        last,
        slot: 1,
        capacity: 17,
        tables: l.tables + 1,
    })
}

// The tail of a new file.
pub fn no_pointer() -> Tail
    ensures { result ≡ no_pointer }
{
    Tail {
        last: Pointer {
            start: Sector(0),
            count: 0,
        },
        slot: 0,
        capacity: 10,
        tables: 1,
    }
}
