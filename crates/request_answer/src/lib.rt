// What a request or a callback result is answered.
#![tactic(auto)]

ghost use Rattle.std.specs.Prelude.{◌≡◌};
ghost use Rattle.request_answer.specs.Promises.{callback_number, magnitude};

// The kind of a callback that the host runs.
#[derive(Clone, Copy, Debug, PartialEq, Eq)]
pub enum CallbackKind {
    Suspend,
    Resume,
    Idle,
}

impl CallbackKind {
    // Its number, in replies and in the memory of a bench.
    pub fn number(self) -> u8
        ensures { result ≡ callback_number self }
    {
        match self {
            CallbackKind::Suspend => 1,
            CallbackKind::Resume => 2,
            CallbackKind::Idle => 3,
        }
    }
}

// A reply: kind 0 finished with a code, 1 to 3 run a callback, 4 refused.
#[derive(Clone, Copy)]
pub struct Reply {
    pub kind: u8,
    pub device: u8,
    pub code: u16,
}

// Finished with a code.
pub fn finished(device: u8, code: u16) -> Reply
    ensures { result ≡ record { kind = 0; device = device; code = code } }
{
    Reply {
        kind: 0,
        device,
        code,
    }
}

// A callback of the device is asked for, by its kind's number.
pub fn ask(kind: u8, device: u8) -> Reply
    ensures { result ≡ record { kind = kind; device = device; code = 0 } }
{
    Reply {
        kind,
        device,
        code: 0,
    }
}

// The magnitude of a negative value, which is kept as a runtime error.
pub fn magnitude(v: u16) -> u32
    ensures { result ≡ magnitude v }
{
    u32::from(v.wrapping_neg())
}
