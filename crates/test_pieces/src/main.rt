// Pieces of log: the cases stand in `stdin`, a test script.
#![tactic(auto)]

use std::io;

fn main(rt: HostRuntime) -> io::Result<()> {
    test_script::run(&rt)
}
