// list TABLE, ending with the status that `list_program::run` gives.
#![tactic(auto)]

use std::process::ExitCode;

fn main(rt: HostRuntime) -> ExitCode {
    ExitCode::from(list_program::run(&rt))
}
