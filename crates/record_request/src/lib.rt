// The requests by their kinds: the dispatch.
#![tactic(auto)]

ghost use Rattle.record_request.specs.Dispatch.{RequestLeads};

use links::FIRSTS;
use memory::{BYTES, WORDS};
use request_answer::{Reply, finished};

// A request: one path for kinds 6, 7 and 8, since which of the three a record has cannot be foreseen, and one line for each other kind.
pub fn request<'a>(
    bytes: &mut [u8; BYTES],
    words: &mut [u32; WORDS],
    first: &'a [u16; FIRSTS],
    kind: u8,
    p: u8,
    v: u16,
) -> Reply
    ensures { RequestLeads kind v first.now bytes.old words.old p bytes.new words.new result }
{
    if (5 < kind) & (kind < 9) {
        return request_suspend::let_sleep(bytes, words, first, kind, p);
    }
    match kind {
        1 => finished(p, request_hold::enable(bytes, p)),
        2 => finished(p, request_hold::disable(bytes, p)),
        3 => finished(p, request_hold::get(words, p)),
        4 => request_wake::get_wake(bytes, words, first, p),
        5 => finished(p, request_hold::put(words, p)),
        9 => request_wake::wake(bytes, words, first, p),
        10 => request_set::set_active(bytes, words, first, p),
        11 => request_set::set_suspended(bytes, words, first, p),
        _ => request_set::ignore_children(bytes, p, v),
    }
}
