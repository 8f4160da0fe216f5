// resume STATE LOG REPLIES [PIECE] [--save STATE]: the replies to a log that goes on from a saved bench, and the state that it leaves. A
// program of this language ends with status 0; `resume_program::run` gives the status that a host ends with.
#![tactic(auto)]

fn main(rt: HostRuntime) {
    resume_program::run(&rt);
}
