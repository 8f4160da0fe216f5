// The replay of the log that the arguments name.
#![tactic(auto)]

ghost use Rattle.std.specs.Prelude.{◌≡◌, ◌⊎◌};
ghost use Rattle.replay_session.specs.Sessions.{Went};

use keeper_bench::Bench;
use program_end::End;
use replay_files::arguments::Task;
use replay_files::files;
use replay_pieces::turn::Progress;
use replay_session::{Ends, Session, ended};
use std::io::Result;
use std::rt::Runtime;

// A replay that fails before the first piece is fed.
fn failed(bench: Bench) -> Session
    ensures { Went bench result }
{
    ended(
        Progress {
            bench,
            pieces: 0,
            replies: 0,
        },
        End::Failed,
    )
}

// What is left to say of the file of replies: that it fails, or that it is not complete.
fn closed(
    rt: &(impl Eprint + Alloc),
    resumes: bool,
    end: End,
    closing: Result<()>,
    path: &[u8],
) -> End
    ensures { (result ≡ end) ⊎ (result ≡ End.Failed) }
{
    if let Err(error) = closing {
        files::complain(rt, resumes, path, error);
        files::incomplete(rt, resumes, path);
        return End::Failed;
    }
    let End::Done = end else {
        files::incomplete(rt, resumes, path);
        return end;
    };
    end
}

// Feeds the first piece of a log and all that follow, and closes the file of replies.
fn poured<R: Runtime>(
    rt: &R,
    first: &[u8],
    bench: Bench,
    mut ends: Ends<R::File>,
    log_path: &[u8],
    out_path: &[u8],
) -> Session
    ensures { Went bench result }
{
    let session = replay_session::pour(rt, first, bench, &mut ends, log_path, out_path);
    let resumes = ends.resumes;
    let closing = program_files::close(ends.out);
    let end = session.end;
    let progress = session.progress;
    ended(progress, closed(rt, resumes, end, closing, out_path))
}

// Replays a log whose first piece is read: makes the file of replies, whose name is argument 3.
fn made<R: Runtime>(
    rt: &R,
    first: &[u8],
    bench: Bench,
    log: R::File,
    task: Task,
    log_path: &[u8],
) -> Session
    ensures { Went bench result }
{
    let mut path = io::buffer();
    let Ok((out, length)) = files::opened(rt, task.resumes, 3, b"REPLIES", &mut path, true) else {
        return failed(bench);
    };
    let ends = Ends {
        resumes: task.resumes,
        log,
        size: task.size,
        out,
    };
    poured(rt, first, bench, ends, log_path, &path[..length])
}

// Replays an open log. The first piece is read before the file of replies is made.
fn opened<R: Runtime>(
    rt: &R,
    mut log: R::File,
    log_path: &[u8],
    bench: Bench,
    task: Task,
) -> Session
    ensures { Went bench result }
{
    let mut bytes = io::buffer();
    let count = match program_files::fill(&mut log, &mut bytes, task.size) {
        Ok(count) => count,
        Err(cut) => {
            files::complain(rt, task.resumes, log_path, cut.error);
            return failed(bench);
        }
    };
    made(rt, &bytes[..count], bench, log, task, log_path)
}

// Replays the log whose name is argument 2.
pub fn named<R: Runtime>(rt: &R, bench: Bench, task: Task) -> Session
    ensures { Went bench result }
{
    let mut path = io::buffer();
    let Ok((log, length)) = files::opened(rt, task.resumes, 2, b"LOG", &mut path, false) else {
        return failed(bench);
    };
    opened(rt, log, &path[..length], bench, task)
}
