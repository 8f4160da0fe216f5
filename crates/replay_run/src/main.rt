// replay TABLE LOG REPLIES [PIECE] [--save STATE], ending with the status that `replay_program::run` gives.
#![tactic(auto)]

use std::process::ExitCode;

fn main(rt: HostRuntime) -> ExitCode {
    ExitCode::from(replay_program::run(&rt))
}
