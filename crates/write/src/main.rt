// write LIST TABLE: the table of a text list. A program of this language ends with status 0; `write_program::run` gives the status that a
// host ends with.
#![tactic(auto)]

fn main(rt: HostRuntime) {
    write_program::run(&rt);
}
