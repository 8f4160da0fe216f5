// The program `replay`: a log is fed to the keeper in pieces, its replies go to a file, and the state that it leaves is printed.
#![tactic(auto)]

ghost use Rattle.std.specs.Prelude.{◌≡◌, ◌⊎◌};
ghost use Rattle.model.specs.State.{load_of};
ghost use Rattle.replay_pieces.specs.Poured.{Replayed};
ghost use Rattle.replay_session.specs.Sessions.{Ran, Judged};

use program_end::End;
use replay_files::arguments::Task;
use replay_files::{arguments, printed};
use replay_pieces::turn::Progress;
use std::rt::Runtime;

// Tells that the table is refused.
fn refuse(rt: &impl Runtime, answer: Result<(), table::Refusal>) -> End
    ensures { (result ≡ End.Refused) ⊎ (result ≡ End.Failed) }
{
    if printed::line(rt, false, replay_report::refused(answer)) {
        return End::Refused;
    }
    End::Failed
}

// Saves the bench that the log leaves, where that is asked: the one that the table and the pieces fed lead to.
fn keep(rt: &impl Runtime, table: &[u8], task: Task, progress: Progress) -> End
    requires { Replayed table.now progress }
    ensures { Ran result }
{
    let bench = progress.bench;
    state_file::keep(rt, task, bench)
}

// Prints the state that the log leaves.
fn tell(rt: &impl Runtime, table: &[u8], progress: Progress) -> End
    requires { Replayed table.now progress }
    ensures { (result ≡ End.Done) ⊎ (result ≡ End.Failed) }
{
    if printed::state(rt, false, progress) {
        return End::Done;
    }
    End::Failed
}

// Loads the table, and replays the log; the bench that it leaves is saved before its state is printed.
fn replay(rt: &impl Runtime, table: &[u8], task: Task) -> End
    ensures { Judged (load_of table.now).answer.number result }
{
    let loaded = keeper::load(table);
    let answer = loaded.answer;
    let bench = loaded.bench;
    let Ok(()) = answer else {
        return refuse(rt, answer);
    };
    let session = replay_log::named(rt, bench, task);
    let end = session.end;
    let End::Done = end else {
        return end;
    };
    let progress = session.progress;
    let kept = keep(rt, table, task, progress);
    let End::Done = kept else {
        return kept;
    };
    tell(rt, table, progress)
}

// Reads the table, and replays the log. A table that is longer than 4,096 bytes is refused with the number of its first 4,096: the
// longest that is taken has 519, and the tests before the length read the first seven bytes.
fn begin(rt: &impl Runtime, task: Task) -> End {
    let mut bytes = io::buffer();
    let Ok(count) = program_files::first_bytes(rt, b"replay: ", b"TABLE", &mut bytes) else {
        return End::Failed;
    };
    replay(rt, &bytes[..count], task)
}

// The program, and its exit status.
pub fn run(rt: &impl Runtime) -> u8 {
    let Some(task) = arguments::read(rt, false) else {
        return u8::from(End::Wrong);
    };
    u8::from(begin(rt, task))
}
