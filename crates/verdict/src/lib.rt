//! Document 01, "Verdict numbers": a call accepts, with 0, or says why it refuses, with the number of that reason.
#![tactic(auto)]

ghost use Rattle.std.specs.Prelude.{◌≡◌};
ghost use Rattle.verdict.specs.Verdicts.{number, told, IsNumberOf};

/// accepted
pub const ACCEPTED: u32 = 0;

/// The longest message that TooLong does not refuse.
pub const LONGEST: usize = 65536;

/// Why a call refuses. The discriminants are the numbers that callers outside are told.
#[derive(Clone, Copy, Debug, PartialEq, Eq)]
pub enum Refusal {
    /// cache or state not well formed
    NotWell = 1,

    /// whole entry, wrong tag, body length or content
    Malformed = 2,

    /// fewer bytes than head and body need
    Short = 3,

    /// slot number not below the slot count
    NoSlot = 4,

    /// slot taken
    SlotTaken = 5,

    /// slot empty
    SlotEmpty = 6,

    /// key already in the cache
    KeyHeld = 7,

    /// value's kind does not fit the key; p not a node; data slot holds a node
    WrongKind = 8,

    /// slot holds another key
    OtherKey = 9,

    /// p is no proper ancestor
    NoAncestor = 10,

    /// p's link is empty or names another key
    NoLink = 11,

    /// other branch
    OtherBranch = 12,

    /// marked deferred
    MarkedDeferred = 13,

    /// digest differs
    DigestDiffers = 14,

    /// not a first value
    NotFirst = 15,

    /// wrong origin
    WrongOrigin = 16,

    /// s is slot 0
    RootSlot = 17,

    /// epoch not open
    EpochNotOpen = 18,

    /// time out of range
    TimeOutOfRange = 19,

    /// count at 1,000,000
    CountFull = 20,

    /// epoch at 1,000,000
    EpochFull = 21,

    /// advance with an old epoch open, or close with none
    WrongMoment = 22,

    /// counts differ
    CountsDiffer = 23,

    /// sums differ
    SumsDiffer = 24,

    /// value differs
    ValueDiffers = 25,

    /// absence not shown
    AbsenceNotShown = 26,

    /// writer's buffer shorter than the entry
    NoRoom = 27,

    /// cache length not 384 to 12,288 or not a multiple of 192
    WrongCache = 28,

    /// bad code or term
    BadTerm = 29,

    /// message over 65,536 bytes
    TooLong = 30,
}

impl From<Refusal> for u32 {
    ghost from_gives = { IsNumberOf };

    fn from(r: Refusal) -> u32 {
        r as u32
    }
}

/// The number that an outcome is told by.
pub fn told<T>(outcome: &Result<T, Refusal>) -> u32
    ensures { result ≡ told outcome.now }
{
    match outcome {
        Ok(_) => ACCEPTED,
        Err(r) => u32::from(*r),
    }
}
