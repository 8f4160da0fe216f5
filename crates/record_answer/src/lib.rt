// What becomes of a piece of log, and document 01's number of it.
#![tactic(auto)]

ghost use Rattle.std.specs.Prelude.{◌≡◌};
ghost use Rattle.record_answer.specs.Answers.{refusal_of, number_of, replies_of};

// Why a piece is refused. A piece that is taken has so many replies.
#[derive(Clone, Copy, Debug, PartialEq, Eq)]
pub enum Refusal {
    Unsound,
    Long,
    Room,
}

impl Refusal {
    // Document 01's number of a refusal.
    pub fn number(self) -> u8
        ensures { result ≡ refusal_of self }
    {
        match self {
            Refusal::Unsound => 21,
            Refusal::Long => 22,
            Refusal::Room => 23,
        }
    }
}

// Document 01's number of an answer, 0 where the piece is taken.
pub fn number(answer: Result<u16, Refusal>) -> u8
    ensures { result ≡ number_of answer }
{
    match answer {
        Ok(_) => 0,
        Err(refusal) => refusal.number(),
    }
}

// How many replies an answer gives; a refused piece gives none.
pub fn count(answer: Result<u16, Refusal>) -> u16
    ensures { result ≡ replies_of answer }
{
    answer.unwrap_or(0)
}
