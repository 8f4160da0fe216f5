// The program `resume`: a bench is restored from a file, and a log goes on from it as in the program `replay`.
#![tactic(auto)]

ghost use Rattle.std.specs.Prelude.{◌≡◌, ◌⊎◌};
ghost use Rattle.saved_form.specs.Restoring.{restore_of};
ghost use Rattle.replay_session.specs.Sessions.{Ran, Judged};
ghost use Rattle.resume_program.specs.Resumed.{Resumed};

use program_end::End;
use replay_files::arguments::Task;
use replay_files::{arguments, printed};
use replay_pieces::turn::Progress;
use std::rt::Runtime;

// Tells that the state is refused.
fn refuse(rt: &impl Runtime, number: u8) -> End
    ensures { (result ≡ End.Refused) ⊎ (result ≡ End.Failed) }
{
    if printed::line(rt, true, replay_refusals::unrestored(number)) {
        return End::Refused;
    }
    End::Failed
}

// Saves the bench that the log leaves, where that is asked: the one that the saved state and the pieces fed lead to.
fn keep(rt: &impl Runtime, state: &[u8], task: Task, progress: Progress) -> End
    requires { Resumed state.now progress }
    ensures { Ran result }
{
    let bench = progress.bench;
    state_file::keep(rt, task, bench)
}

// Prints the state that the log leaves.
fn tell(rt: &impl Runtime, state: &[u8], progress: Progress) -> End
    requires { Resumed state.now progress }
    ensures { (result ≡ End.Done) ⊎ (result ≡ End.Failed) }
{
    if printed::state(rt, true, progress) {
        return End::Done;
    }
    End::Failed
}

// Restores the bench, and feeds it the log; the bench that it leaves is saved before its state is printed.
fn resume(rt: &impl Runtime, state: &[u8], task: Task) -> End
    ensures { Judged (restore_of state.now).number result }
{
    let restored = saved::restore(state);
    let answer = restored.answer;
    let bench = restored.bench;
    if let Err(refusal) = answer {
        return refuse(rt, refusal.number());
    }
    let session = replay_log::named(rt, bench, task);
    let end = session.end;
    let End::Done = end else {
        return end;
    };
    let progress = session.progress;
    let kept = keep(rt, state, task, progress);
    let End::Done = kept else {
        return kept;
    };
    tell(rt, state, progress)
}

// Reads the saved state, and goes on from it. A file that is longer than the buffer has the number of its first bytes: the buffer is longer
// than a saved state, and the tests before the length read the first five bytes.
fn begin(rt: &impl Runtime, task: Task) -> End {
    let mut bytes = io::large_buffer();
    let Ok(count) = program_files::first_bytes(rt, b"resume: ", b"STATE", &mut bytes) else {
        return End::Failed;
    };
    resume(rt, &bytes[..count], task)
}

// The program, and its exit status.
pub fn run(rt: &impl Runtime) -> u8 {
    let Some(task) = arguments::read(rt, true) else {
        return u8::from(End::Wrong);
    };
    u8::from(begin(rt, task))
}
