// list TABLE: a table as a text list. A program of this language ends with status 0; `list_program::run` gives the status that a host ends
// with.
#![tactic(auto)]

fn main(rt: HostRuntime) {
    list_program::run(&rt);
}
