// The replay of an open log: pieces are read, fed to the keeper and answered until the log ends.
#![tactic(auto)]

ghost use Rattle.std.specs.Prelude.{◌≡◌, false, ◌⊎◌};
ghost use Rattle.model.specs.Steps.{run, replies_in};
ghost use Rattle.keeper_bench.specs.Translate.{state_of};
ghost use Rattle.replay_session.specs.Sessions.{FedTo, Stepped, Went};

use keeper_bench::Bench;
use program_end::End;
use replay_files::{files, printed};
use replay_pieces::turn;
use replay_pieces::turn::Progress;
use std::io::{Read, Result, Write};

// Where a replay stands: the bench and the replies, the end where there is no more, and whether there may be more to read.
// The end is Done where there may be more, since `pour` ends so where it can count no further: an Option would be turned into Done again there.
#[derive(Clone, Copy)]
pub struct Session {
    pub progress: Progress,
    pub end: End,
    pub more: bool,
}

// The program that speaks, what it reads from, in pieces of which size, and what it writes to.
#[derive(Drop)]
pub struct Ends<F> {
    pub resumes: bool,
    pub log: F,
    pub size: usize,
    pub out: F,
}

// A session that ends.
pub fn ended(progress: Progress, end: End) -> Session
    ensures { (result.progress ≡ progress) × (result.end ≡ end) × (result.more ≡ false) }
{
    Session {
        progress,
        end,
        more: false,
    }
}

// Hands the library what is to be written, the model's replies to a piece, each byte of them. The bench and the piece are there to name these
// replies.
fn write_replies(out: &mut impl Write, bench: Bench, piece: &[u8], replies: &[u8]) -> Result<()>
    requires { replies.now ≡ replies_in (run (state_of bench) piece.now).log }
{
    out.write_all(replies)
}

// Feeds a piece and writes its replies; says so where that fails.
fn fed<F: Write>(
    rt: &(impl Eprint + Alloc),
    before: Progress,
    piece: &[u8],
    ends: &mut Ends<F>,
    out_path: &[u8],
) -> Session
    ensures { FedTo before piece.now result }
{
    let mut replies = io::buffer();
    let turn = turn::feed(before, piece, &mut replies);
    let progress = turn.progress;
    let answer = turn.answer;
    if let Err(refusal) = answer {
        printed::stopped(rt, ends.resumes, refusal.number());
        return ended(progress, End::Stopped);
    }
    let bench = before.bench;
    let written = turn.bytes;
    if let Err(error) = write_replies(&mut ends.out, bench, piece, &replies[..written]) {
        files::complain(rt, ends.resumes, out_path, error);
        return ended(progress, End::Failed);
    }
    Session {
        progress,
        end: End::Done,
        more: true,
    }
}

// Reads the next piece, feeds it and writes its replies.
fn next<F: Read + Write>(
    rt: &(impl Eprint + Alloc),
    before: Progress,
    ends: &mut Ends<F>,
    log_path: &[u8],
    out_path: &[u8],
) -> Session
    ensures { Stepped before result }
{
    let mut bytes = io::buffer();
    let size = ends.size;
    let count = match program_files::fill(&mut ends.log, &mut bytes, size) {
        Ok(count) => count,
        Err(failed) => {
            files::complain(rt, ends.resumes, log_path, failed.error);
            return ended(before, End::Failed);
        }
    };
    if count == 0 {
        return ended(before, End::Done);
    }
    fed(rt, before, &bytes[..count], ends, out_path)
}

// Feeds the first piece and all that follow. A proved loop has to end, and nothing says that a file does: the loop ends at a number of
// pieces that no log has. So each turn has to go on from where the one before it stands.
// A `for` over the numbers of pieces would be no plainer: it would test `more` in its body, and count beside the progress.
pub fn pour<F: Read + Write>(
    rt: &(impl Eprint + Alloc),
    first: &[u8],
    bench: Bench,
    ends: &mut Ends<F>,
    log_path: &[u8],
    out_path: &[u8],
) -> Session
    ensures { Went bench result }
{
    let start = Progress {
        bench,
        pieces: 0,
        replies: 0,
    };
    let mut session = fed(rt, start, first, ends, out_path);
    while session.more {
        let progress = session.progress;
        if u64::MAX <= progress.pieces {
            break;
        }
        session = next(rt, progress, ends, log_path, out_path);
    }
    session
}
