// The answers to the public questions on a bench: a refusal (21, then 24) or what is asked for; and each answer as one number.
#![tactic(auto)]

ghost use Rattle.std.specs.Prelude.{◌≡◌};
ghost use Rattle.keeper_answers.specs.Told.{status_of, status_for, refusal_of, number_told, told_code};

// A device's status.
#[derive(Clone, Copy, Debug, PartialEq, Eq)]
pub enum Status {
    Suspended,
    Resuming,
    Active,
    Suspending,
}

impl Status {
    // The status of a number; the last of the four for any number past it.
    pub fn from_number(x: u8) -> Status
        ensures { status_of result ≡ status_for x }
    {
        match x {
            0 => Status::Suspended,
            1 => Status::Resuming,
            2 => Status::Active,
            _ => Status::Suspending,
        }
    }

    // The number of a status.
    pub fn number(self) -> u8
        ensures { result ≡ status_of self }
    {
        match self {
            Status::Suspended => 0,
            Status::Resuming => 1,
            Status::Active => 2,
            Status::Suspending => 3,
        }
    }
}

// Why a question is not answered: the bench is not sound, or a device is unknown.
#[derive(Clone, Copy, Debug, PartialEq, Eq)]
pub enum Refusal {
    Unsound,
    Unknown,
}

impl Refusal {
    // Document 01's number of a refusal.
    pub fn number(self) -> u8
        ensures { result ≡ refusal_of self }
    {
        match self {
            Refusal::Unsound => 21,
            Refusal::Unknown => 24,
        }
    }
}

// An answer as one number: the refusal's number and 256 times what is told.
pub fn code(answer: Result<u32, Refusal>) -> u64
    ensures { result ≡ told_code (number_told answer) }
{
    match answer {
        Ok(x) => 256 * u64::from(x),
        Err(refusal) => u64::from(refusal.number()),
    }
}
