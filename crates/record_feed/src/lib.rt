// A piece of log over the memory of a bench: its records answered in order, the bytes left over carried.
#![tactic(auto)]

ghost use Rattle.record_loop.specs.Runs.{Room};
ghost use Rattle.record_feed.specs.Pieces.{Took, FedIn};

use links::FIRSTS;
use memory::{BYTES, WORDS};
use model::PIECE;
use record_answer::Refusal;
use record_piece::Carried;

// A piece that is not refused, after so many carried bytes: its records answered, the bytes left over carried.
fn take_piece<'a>(
    bytes: &mut [u8; BYTES],
    words: &mut [u32; WORDS],
    first: &'a [u16; FIRSTS],
    used: usize,
    piece: &'a [u8],
    replies: &mut [u8],
)
    requires { Room used piece.now replies.old }
    ensures { Took used first.now bytes.old words.old piece.now replies.old
        bytes.new words.new replies.new }
{
    let held = memory::carry(bytes);
    let carried = Carried {
        bytes: held,
        used: used,
    };
    memory::set_carried(bytes, [0, 0, 0], 0);
    let left = record_piece::answer_piece(bytes, words, first, carried, piece, replies);
    let total = used + piece.len();
    memory::set_carried(bytes, left, (total % 4) as u8);
}

// One piece of log. A refused piece touches neither the memory nor the buffer.
pub fn feed<'a>(
    bytes: &mut [u8; BYTES],
    words: &mut [u32; WORDS],
    piece: &'a [u8],
    replies: &mut [u8],
) -> Result<u16, Refusal>
    ensures { FedIn bytes.old words.old piece.now replies.old
        bytes.new words.new result replies.new }
{
    let first = links::index(bytes, words);
    if !sound_callback::sound_by(bytes, words, &first) {
        return Err(Refusal::Unsound);
    }
    if PIECE < piece.len() {
        return Err(Refusal::Long);
    }
    let used = usize::from(memory::used(bytes));
    let count = (used + piece.len()) / 4;
    if replies.len() < 4 * count {
        return Err(Refusal::Room);
    }
    take_piece(bytes, words, &first, used, piece, replies);
    Ok(count as u16)
}
