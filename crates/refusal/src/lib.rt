// Why a record is refused: what is wrong, with the number of the question that is answered no.
#![tactic(auto)]

ghost use Rattle.std.specs.Prelude.{◌≡◌};
ghost use Rattle.refusal.specs.Number.{number_of};

// What is wrong where a question is answered no: 1 to 13, in document 01's order, and F-4's 14.
#[derive(Clone, Copy, Debug, PartialEq, Eq)]
pub enum Refusal {
    TooLong = 1,
    UnknownWord = 2,
    UncoveredLetter = 3,
    WrongCount = 4,
    BadlyWritten = 5,
    OutsideLimits = 6,
    AlreadyGiven = 7,
    NotDeclared = 8,
    NoRate = 9,
    OutOfTurn = 10,
    IncurredTooSmall = 11,
    RatioFalls = 12,
    NoPattern = 13,
    NoMonth = 14,
}

impl Refusal {
    // "A "no" refuses with that question's number."
    pub fn number(self) -> u64
        ensures { result ≡ number_of self }
    {
        self as u64
    }
}
