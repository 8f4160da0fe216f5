// Why the writer of tables refuses the lists that it is given (request One of document 02), and the number and index of its answer.
#![tactic(auto)]

ghost use Rattle.std.specs.Prelude.{◌≡◌};
ghost use Rattle.writer_answer.specs.Outcomes.{outcome_of, refusal_of};

// Why no table is written, in the order of the tests. An entry's refusal has its index in the list given.
#[derive(Clone, Copy, Debug, PartialEq, Eq)]
pub enum Refusal {
    Limits,
    Device(u8),
    Link(u16),
    Room,
}

impl Refusal {
    // The number of a refusal.
    pub fn number(self) -> u8
        ensures { result ≡ (refusal_of self).number }
    {
        match self {
            Refusal::Limits => 4,
            Refusal::Device(_) => 6,
            Refusal::Link(_) => 7,
            Refusal::Room => 8,
        }
    }

    // The index of a faulty entry, 0 for any other refusal.
    pub fn index(self) -> u16
        ensures { result ≡ (refusal_of self).index }
    {
        match self {
            Refusal::Limits => 0,
            Refusal::Device(p) => u16::from(p),
            Refusal::Link(i) => i,
            Refusal::Room => 0,
        }
    }
}

// The number of an outcome, 0 where the table is written.
pub fn number(outcome: Result<(), Refusal>) -> u8
    ensures { result ≡ (outcome_of outcome).number }
{
    match outcome {
        Ok(()) => 0,
        Err(refusal) => refusal.number(),
    }
}

// The index of a faulty entry, 0 for any other outcome.
pub fn index(outcome: Result<(), Refusal>) -> u16
    ensures { result ≡ (outcome_of outcome).index }
{
    match outcome {
        Ok(()) => 0,
        Err(refusal) => refusal.index(),
    }
}
