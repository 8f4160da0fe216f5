// Single records, and the questions on a bench: the cases stand in `stdin`, a test script.
#![tactic(auto)]

use std::io;

fn main(rt: HostRuntime) -> io::Result<()> {
    test_script::run(&rt)
}
