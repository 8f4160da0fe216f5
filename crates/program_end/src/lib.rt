// How a program ends.
#![tactic(auto)]

ghost use Rattle.std.specs.Prelude.{◌≡◌};
ghost use Rattle.program_end.specs.Ends.{status_of};

// All is done, the table, the list or the saved state is refused, the arguments are wrong, a file cannot be opened, read or written, or the
// keeper refuses a piece or to save.
#[derive(Clone, Copy, Debug, PartialEq, Eq)]
pub enum End {
    Done,
    Refused,
    Wrong,
    Failed,
    Stopped,
}

// The exit status.
impl From<End> for u8 {
    ghost from_gives = { λ end status. status ≡ status_of end };

    fn from(end: End) -> u8 {
        match end {
            End::Done => 0,
            End::Refused => 1,
            End::Wrong => 2,
            End::Failed => 3,
            End::Stopped => 4,
        }
    }
}
