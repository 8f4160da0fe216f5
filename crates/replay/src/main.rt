// replay TABLE LOG REPLIES [PIECE] [--save STATE]: the replies to a log, and the state that it leaves. A program of this language ends with
// status 0; `replay_program::run` gives the status that a host ends with.
#![tactic(auto)]

fn main(rt: HostRuntime) {
    replay_program::run(&rt);
}
