// A piece of log fed to the keeper.
ghost use Rattle.replay_pieces.specs.Turns.{Turned};

use keeper_bench::Bench;
use record_answer::Refusal;

// Where a replay stands: the bench, and how many pieces and replies there are so far.
#[derive(Clone, Copy)]
pub struct Progress {
    pub bench: Bench,
    pub pieces: u64,
    pub replies: u64,
}

// What a piece gives: where the replay stands after it, the keeper's answer, and how many bytes of the buffer are its replies.
#[derive(Clone, Copy)]
pub struct Turn {
    pub progress: Progress,
    pub answer: Result<u16, Refusal>,
    pub bytes: usize,
}

// Feeds a piece. The numbers of pieces and of replies begin again at 2^64, which no log reaches.
pub fn feed(progress: Progress, piece: &[u8], replies: &mut [u8]) -> Turn
    ensures { Turned progress (record { bytes = piece.now; buffer = replies.old }) result replies.new }
{
    let bench = progress.bench;
    let fed = keeper::feed(bench, piece, replies);
    let answer = fed.answer;
    let left = fed.bench;
    let more = record_answer::count(answer);
    Turn {
        progress: Progress {
            bench: left,
            pieces: progress.pieces.wrapping_add(1),
            replies: progress.replies.wrapping_add(u64::from(more)),
        },
        answer,
        bytes: 4 * usize::from(more),
    }
}
