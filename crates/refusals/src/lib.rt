// Why operations and calls are refused, each reason once, with its number. Names and numbers are those of the host crate and its C
// header.
#![tactic(auto)]

ghost use Rattle.std.specs.Prelude.{◌≡◌};
ghost use Rattle.refusals.specs.Refusal.{code_of, number_in};

// Why an operation or a call is refused, with its number. 14 to 19 are kept for calls that are added later.
#[derive(Clone, Copy, Debug, PartialEq, Eq)]
pub enum Refusal {
    // There is no such DC.
    NoDc = 1,

    // The DC has no surface: no bitmap was selected, or it was deleted.
    NoSurface = 2,

    // There is no such source DC.
    NoSourceDc = 3,

    // The source DC has no surface.
    NoSourceSurface = 4,

    // 256 created objects are live.
    TooManyObjects = 5,

    // A side is outside its limits.
    Side = 6,

    // The panel memory or the store is too short.
    TooShort = 7,

    // Lent bytes have a wrong length.
    Length = 8,

    // The record is unsound, or the numbers are no record.
    UnsoundRecord = 9,

    // A text has more than 65,535 units.
    TextTooLong = 10,

    // A position is outside -32,768 to 32,767.
    Position = 11,

    // The bytes are not exactly one saved table.
    Table = 12,

    // The output is shorter than the saved table.
    OutputTooShort = 13,

    // The numbers of a host's call are no call.
    NoCall = 255,
}

impl Refusal {
    // Returns the refusal's number.
    pub fn number(self) -> u32
        ensures { result ≡ code_of self }
    {
        self as u32
    }
}

impl From<Refusal> for u32 {
    ghost from_gives = { λ r n. n ≡ code_of r };

    fn from(r: Refusal) -> u32 {
        r.number()
    }
}

// Returns the number with which a result is refused, 0 if it is accepted.
pub fn number_in(r: Result<(), Refusal>) -> u32
    ensures { result ≡ number_in r }
{
    match r {
        Ok(()) => 0,
        Err(refusal) => refusal.number(),
    }
}
