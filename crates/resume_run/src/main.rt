// resume STATE LOG REPLIES [PIECE] [--save STATE], ending with the status that `resume_program::run` gives.
#![tactic(auto)]

use std::process::ExitCode;

fn main(rt: HostRuntime) -> ExitCode {
    ExitCode::from(resume_program::run(&rt))
}
