// write LIST TABLE, ending with the status that `write_program::run` gives.
#![tactic(auto)]

use std::process::ExitCode;

fn main(rt: HostRuntime) -> ExitCode {
    ExitCode::from(write_program::run(&rt))
}
