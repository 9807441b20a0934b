// Why a request is refused. The paper numbers the refusals; 0, the number of a request that is done, is none of them.
ghost use Rattle.std.specs.Prelude.{◌≡◌, ◌≤◌, ◌<◌};
ghost use Rattle.tables.specs.Refusals.{number};

// In the order in which a request looks for them, but that 7 for the withheld list comes before 4.
#[derive(Clone, Copy, PartialEq, Eq)]
pub enum Refusal {
    WrongLength = 1,
    WrongMark = 2,
    WrongLimits = 3,
    BrokenRule = 4,
    NotMounted = 5,
    AlreadyMounted = 6,
    BadArgument = 7,
    WrongBody = 15,
    NoFile = 8,
    WrongState = 9,
    ProtectedFile = 10,
    FixedFile = 11,
    PastEnd = 14,
    NoRoom = 12,
    NoTables = 13,
}

impl Refusal {
    // The paper's number.
    pub fn number(self) -> u32
        ensures { (result ≡ number self) × (1 ≤ result) × (result ≤ 15) }
    {
        self as u32
    }
}
