// Refusals: why a call is refused, by document 01's words and in the order of its table, then document 02's.
ghost use Rattle.std.specs.Prelude.{◌≡◌};
ghost use Rattle.base.specs.Refusals.{number_of, answer_of};

// Each has its number on the report.
#[derive(Clone, Copy, Debug, PartialEq, Eq)]
pub enum Refusal {
    Header = 1,
    Pairs = 2,
    Item = 3,
    Twin = 4,
    State = 14,
    Form = 5,
    Name = 6,
    Role = 7,
    Down = 8,
    Period = 9,
    Unknown = 10,
    Clash = 11,
    Short = 12,
    Full = 13,
    Input = 15,
    Sheet = 16,
    Given = 17,
    Clean = 18,
}

impl Refusal {
    // The number on the report.
    pub fn number(self) -> u8
        ensures { result ≡ number_of self }
    {
        self as u8
    }
}

// The answer on the report of a call that may be refused: 0 where it is not.
pub fn answer(outcome: Result<(), Refusal>) -> u8
    ensures { result ≡ answer_of outcome }
{
    match outcome {
        Ok(()) => 0,
        Err(refusal) => refusal.number(),
    }
}
