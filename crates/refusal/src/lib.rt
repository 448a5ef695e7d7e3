#![tactic(auto)]

// Why a request is refused, with document 01's numbers. Refusal.antt of the definition has the sentence of each.
ghost use Rattle.std.specs.Prelude.{◌≡◌};
ghost use Rattle.refusal.specs.Number.{number};

#[derive(Clone, Copy, Debug, PartialEq, Eq)]
pub enum Refusal {
    NotWellFormed = 1,
    Malformed = 2,
    WithoutMask = 3,
    NeverMade = 4,
    FailsPick = 5,
    Misaligned = 6,
    MissingProvenance = 7,
    DeadAllocation = 8,
    OutOfBounds = 9,
    AwayFromStart = 10,
    AnotherKind = 11,
    AnotherSize = 12,
    AnotherAlignment = 13,
    BelowStart = 14,
    SizeExceeded = 15,
    NotProtected = 16,
    LocalReadOfDisabled = 17,
    LocalWriteOfFrozen = 18,
    LocalWriteOfDisabled = 19,
    LocalWriteOfReserved = 20,
    ForeignReadOfUnique = 21,
    ForeignWriteOfRead = 22,
    ForeignWriteOfUnique = 23,
    StrongProtector = 24,
    MemoryLeak = 25,
    LocalReadOfProtectedDisabled = 26,
    LocalWriteOfProtectedFrozen = 27,
    LocalWriteOfProtectedDisabled = 28,
}

impl Refusal {
    // Document 01's number.
    pub fn number(self) -> u8
        ensures { result ≡ number self }
    {
        self as u8
    }
}
