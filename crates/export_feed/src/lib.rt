// A piece of log on the memory of a bench, for the tests to call. It is a library of its own: with one caller of the dispatch in it,
// the compiler makes the loop and the dispatch one piece of code, as in `replay_program`.
#![tactic(auto)]

ghost use Rattle.std.specs.Prelude.{◌≡◌};
ghost use Rattle.record_answer.specs.Answers.{number_of, replies_of};
ghost use Rattle.export_feed.specs.Fed.{fed_code, FedIn};

use keeper_bench::Bench;
use memory::{BYTES, WORDS};
use record_answer::Refusal;

// The answer as one number: the refusal's number and 256 times the number of replies.
fn code(answer: Result<u16, Refusal>) -> u32
    ensures { result ≡ fed_code (number_of answer) (replies_of answer) }
{
    let number = u32::from(record_answer::number(answer));
    let replies = u32::from(record_answer::count(answer));
    number + 256 * replies
}

// One piece on the memory of a bench, in place.
#[unsafe(no_mangle)]
pub extern "C" fn tests_feed<'a>(
    bytes: &mut [u8; BYTES],
    words: &mut [u32; WORDS],
    piece: &'a [u8],
    replies: &mut [u8],
) -> u32
    ensures { FedIn bytes.old words.old piece.now replies.old
        bytes.new words.new result replies.new }
{
    let fed = keeper::feed(
        Bench {
            bytes: *bytes,
            words: *words,
        },
        piece,
        replies,
    );
    let answer = fed.answer;
    let bench = fed.bench;
    let bytes_left = bench.bytes;
    *bytes = bytes_left;
    let words_left = bench.words;
    *words = words_left;
    code(answer)
}
