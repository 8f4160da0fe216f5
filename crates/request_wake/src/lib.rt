// Kinds 4 and 9, and the result of the resume callback.
#![tactic(auto)]

ghost use Rattle.std.specs.Prelude.{◌≡◌};
ghost use Rattle.model.specs.Requests.{wake, get_wake};
ghost use Rattle.model.specs.Steps.{go_on};
ghost use Rattle.request_answer.specs.Promises.{LeadsBy};
ghost use Rattle.request_wake.specs.Wakes.{Resumes, ResultLeads, failed};

use links::FIRSTS;
use memory::{BYTES, WORDS, devices, set_callback};
use memory_rows::{depth, error, status};
use memory_stores::{set_error, set_status_cell};
use model::{ACTIVE, EACCES, EBUSY, EINVAL, RESUMING, SUSPENDED};
use request_answer::{CallbackKind, Reply, ask, finished, magnitude};
use wakeset::{lowest_member, reached};

// Device q turns resuming for the wake of t, and its resume callback is asked for.
fn ask_resume(bytes: &mut [u8; BYTES], q: u8, t: u8) -> Reply
    ensures { Resumes bytes.old q t bytes.new result }
{
    set_status_cell(bytes, q, RESUMING);
    let resume = CallbackKind::Resume.number();
    set_callback(bytes, resume, q, t);
    ask(resume, q)
}

// Kind 9.
pub fn wake<'a>(
    bytes: &mut [u8; BYTES],
    words: &mut [u32; WORDS],
    first: &'a [u16; FIRSTS],
    p: u8,
) -> Reply
    ensures { LeadsBy wake first.now bytes.old words.old p bytes.new words.new result }
{
    if 0 < error(words, p) {
        return finished(p, EINVAL);
    }
    if 0 < depth(bytes, p) {
        return finished(p, EACCES);
    }
    if status(bytes, p) == ACTIVE {
        return finished(p, 1);
    }
    let found = reached(bytes, words, first, p);
    if found.barred {
        return finished(p, EBUSY);
    }
    ask_resume(bytes, found.low, p)
}

// Kind 4: wake follows the get, unless that was -75; the hold stays whatever follows.
pub fn get_wake<'a>(
    bytes: &mut [u8; BYTES],
    words: &mut [u32; WORDS],
    first: &'a [u16; FIRSTS],
    p: u8,
) -> Reply
    ensures { LeadsBy get_wake first.now bytes.old words.old p bytes.new words.new result }
{
    let code = request_hold::get(words, p);
    if code != 0 {
        return finished(p, code);
    }
    wake(bytes, words, first, p)
}

// The members of t's wake set that remain are asked in turn; then the wake of t is finished. A member is one of the n devices: on a bench
// that is not sound the target may be none of them.
fn go_on<'a>(
    bytes: &mut [u8; BYTES],
    words: &mut [u32; WORDS],
    first: &'a [u16; FIRSTS],
    t: u8,
) -> Reply
    ensures { LeadsBy go_on first.now bytes.old words.old t bytes.new words.new result }
{
    let low = lowest_member(bytes, first, t).unwrap_or(devices(bytes));
    if devices(bytes) <= low {
        return finished(t, 0);
    }
    ask_resume(bytes, low, t)
}

// The code of the wake of t, where the resume callback of p failed with v.
fn failed(p: u8, t: u8, v: u16) -> u16
    ensures { result ≡ failed p t v }
{
    if p == t { v } else { EBUSY }
}

// The result v of the resume callback of device p, which was asked for the wake of t.
pub fn resume_result<'a>(
    bytes: &mut [u8; BYTES],
    words: &mut [u32; WORDS],
    first: &'a [u16; FIRSTS],
    p: u8,
    t: u8,
    v: u16,
) -> Reply
    ensures { ResultLeads t v first.now bytes.old words.old p bytes.new words.new result }
{
    if v == 0 {
        counts::set_status(bytes, words, first, p, ACTIVE);
        set_callback(bytes, 0, 0, 0);
        return go_on(bytes, words, first, t);
    }
    counts::set_status(bytes, words, first, p, SUSPENDED);
    set_callback(bytes, 0, 0, 0);
    set_error(words, p, magnitude(v));
    finished(t, failed(p, t, v))
}
