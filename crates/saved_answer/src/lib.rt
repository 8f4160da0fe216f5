// What becomes of a bench that is to be saved and of bytes that are to be restored, and document 02's number of it (request Four).
#![tactic(auto)]

ghost use Rattle.std.specs.Prelude.{◌≡◌};
ghost use Rattle.saved_answer.specs.Answers.{save_refusal, restore_refusal, saving_of, restoring_of};

// Why a bench is not saved: it is not sound, or the buffer is too short; in the order of the tests.
#[derive(Clone, Copy, Debug, PartialEq, Eq)]
pub enum SaveRefusal {
    Unsound,
    Room,
}

impl SaveRefusal {
    // The number of the refusal.
    pub fn number(self) -> u8
        ensures { result ≡ save_refusal self }
    {
        match self {
            SaveRefusal::Unsound => 21,
            SaveRefusal::Room => 8,
        }
    }
}

// Why bytes are not restored: fewer than five bytes, another mark, a version that is not known, another length than the version's, or no sound
// bench's form; in the order of the tests.
#[derive(Clone, Copy, Debug, PartialEq, Eq)]
pub enum RestoreRefusal {
    Short,
    Mark,
    Version,
    Length,
    Unsound,
}

impl RestoreRefusal {
    // The number of the refusal.
    pub fn number(self) -> u8
        ensures { result ≡ restore_refusal self }
    {
        match self {
            RestoreRefusal::Short => 1,
            RestoreRefusal::Mark => 2,
            RestoreRefusal::Version => 3,
            RestoreRefusal::Length => 5,
            RestoreRefusal::Unsound => 21,
        }
    }
}

// The number of a saving, 0 where the form is written.
pub fn save_number(answer: Result<(), SaveRefusal>) -> u8
    ensures { result ≡ saving_of answer }
{
    match answer {
        Ok(()) => 0,
        Err(unsaved) => unsaved.number(),
    }
}

// The number of a restoring, 0 where the bytes are a bench's form.
pub fn restore_number(answer: Result<(), RestoreRefusal>) -> u8
    ensures { result ≡ restoring_of answer }
{
    match answer {
        Ok(()) => 0,
        Err(unrestored) => unrestored.number(),
    }
}
