// The records of a piece of log one after another.
#![tactic(auto)]

ghost use Rattle.std.specs.Prelude.{◌≡◌, ◌+◌, ◌≤◌, length};
ghost use Rattle.model.specs.Limits.{MAXPIECE};
ghost use Rattle.model.specs.Records.{reply_bytes};
ghost use Rattle.request_answer.specs.Promises.{reply_of};
ghost use Rattle.record_kinds.specs.Kinds.{rec_of};
ghost use Rattle.record_loop.specs.Runs.{record_in, over_at, Answered};

use links::FIRSTS;
use memory::{BYTES, WORDS};
use model::PIECE;
use record_kinds::Record;
use request_answer::Reply;

// The record at byte j of the piece, read whole.
fn record_in(piece: &[u8], j: usize) -> Record
    requires { (j + 4 ≤ length piece.now) × (length piece.now ≤ MAXPIECE) }
    ensures { rec_of result ≡ record_in piece.now j }
{
    Record {
        kind: piece[j],
        device: piece[j + 1],
        value: u16::from_le_bytes([piece[j + 2], piece[j + 3]]),
    }
}

// Writes the four bytes of a reply at byte i of the buffer, one by one: in a library where the loop is compiled by itself (`export_feed`), an
// array of them is stored and read again to be copied, and a log that is mostly refused takes two fifths more time.
fn write_reply(replies: &mut [u8], i: usize, reply: Reply)
    requires { i + 4 ≤ length replies.old }
    ensures { replies.new ≡ over_at i (reply_bytes (reply_of reply)) replies.old }
{
    let [low, high] = reply.code.to_le_bytes();
    replies[i] = reply.kind;
    replies[i + 1] = reply.device;
    replies[i + 2] = low;
    replies[i + 3] = high;
}

// Answers the whole records of a source, each at its record's place in the buffer. Where the source is longer than a piece may be, or the
// buffer has no room for the replies, nothing is done.
pub fn answer_records<'a>(
    bytes: &mut [u8; BYTES],
    words: &mut [u32; WORDS],
    first: &'a [u16; FIRSTS],
    source: &'a [u8],
    replies: &mut [u8],
)
    ensures { Answered first.now bytes.old words.old replies.old source.now
        bytes.new words.new replies.new }
{
    if PIECE < source.len() {
        return;
    }
    let count = source.len() / 4;
    if replies.len() < 4 * count {
        return;
    }
    for k in 0..count {
        let record = record_in(source, 4 * k);
        let reply = record_step::step(bytes, words, first, record);
        write_reply(replies, 4 * k, reply);
    }
}
