// Kinds 6, 7 and 8, and the results of the idle and suspend callbacks.
#![tactic(auto)]

ghost use Rattle.std.specs.Prelude.{◌≡◌, List, ℕ};
ghost use Rattle.model.specs.Requests.{ask_suspend};
ghost use Rattle.model.specs.Steps.{idle_result, suspend_result};
ghost use Rattle.memory.specs.Layout.{state_in};
ghost use Rattle.request_answer.specs.Promises.{LeadsBy};
ghost use Rattle.request_suspend.specs.Parts.{passing, settled};
ghost use Rattle.request_suspend.specs.Sleeps.{PutFirst, still_used, LetsSleep};

use basics::choose;
use links::FIRSTS;
use memory::{BYTES, WORDS, set_callback};
use memory_rows::{holds, linked, status};
use memory_stores::set_error;
use model::{ACTIVE, EAGAIN, EBUSY, SUSPENDED, SUSPENDING};
use request_answer::{CallbackKind, Reply, ask, finished, magnitude};
use suspend_test::{suspend_test, usage};

// The device turns suspending, and its suspend callback is asked for.
fn ask_suspend<'a>(
    bytes: &mut [u8; BYTES],
    words: &mut [u32; WORDS],
    first: &'a [u16; FIRSTS],
    p: u8,
) -> Reply
    ensures { LeadsBy ask_suspend first.now bytes.old words.old p bytes.new words.new result }
{
    counts::set_status(bytes, words, first, p, SUSPENDING);
    let suspend = CallbackKind::Suspend.number();
    set_callback(bytes, suspend, p, p);
    ask(suspend, p)
}

// The put that kind 6 begins with: its code; 0 for any other kind. A kind is a number here, since `let_sleep` answers for every number.
fn put_first(words: &mut [u32; WORDS], kind: u8, p: u8) -> u16
    ensures { PutFirst kind words.old p words.new result }
{
    if kind == 6 {
        return request_hold::put(words, p);
    }
    0
}

// After its put kind 6 goes no further while the device is in use, by a holder or by a powered consumer.
fn still_used<'a>(words: &'a [u32; WORDS], kind: u8, p: u8) -> bool
    ensures { (bytes : List ℕ) → result ≡ still_used kind (state_in bytes words.now) p }
{
    let held = holds(words, p);
    let consumers = linked(words, p);
    (kind == 6) & (0 < usage(held, consumers))
}

// Kinds 6, 7 and 8. Kind 6 is a put, and kind 7 follows unless the put was -75 or the device is still in use: both are answered with the
// put's code. Kinds 7 and 8 make the suspend test and then ask something of the status; idle or suspend follows. One path for the three,
// since which of them a record has cannot be foreseen.
pub fn let_sleep<'a>(
    bytes: &mut [u8; BYTES],
    words: &mut [u32; WORDS],
    first: &'a [u16; FIRSTS],
    kind: u8,
    p: u8,
) -> Reply
    ensures { LetsSleep kind first.now bytes.old words.old p bytes.new words.new result }
{
    let put = put_first(words, kind, p);
    if (put != 0) | still_used(words, kind, p) {
        return finished(p, put);
    }
    let awake = choose(status(bytes, p) == ACTIVE, 0, EAGAIN);
    let asleep = choose(status(bytes, p) == SUSPENDED, 1, 0);
    let own = choose(kind < 8, awake, asleep);
    let test = suspend_test(bytes, words, p);
    let code = choose(0 < test, test, own);
    if 0 < code {
        return finished(p, code);
    }
    if kind < 8 {
        let idle = CallbackKind::Idle.number();
        set_callback(bytes, idle, p, p);
        return ask(idle, p);
    }
    ask_suspend(bytes, words, first, p)
}

// The result v of the idle callback of device p.
pub fn idle_result<'a>(
    bytes: &mut [u8; BYTES],
    words: &mut [u32; WORDS],
    first: &'a [u16; FIRSTS],
    p: u8,
    v: u16,
) -> Reply
    ensures { LeadsBy (λ s p. idle_result s p v) first.now bytes.old words.old p
        bytes.new words.new result }
{
    set_callback(bytes, 0, 0, 0);
    if v != 0 {
        return finished(p, v);
    }
    ask_suspend(bytes, words, first, p)
}

// -11 and -16 from a suspend callback are not kept.
fn passing(v: u16) -> bool
    ensures { result ≡ passing v }
{
    (v == EAGAIN) | (v == EBUSY)
}

// The status that a suspend callback's result leads to.
fn settled(v: u16) -> u8
    ensures { result ≡ settled v }
{
    choose(v == 0, SUSPENDED, ACTIVE)
}

// The result v of the suspend callback of device p.
pub fn suspend_result<'a>(
    bytes: &mut [u8; BYTES],
    words: &mut [u32; WORDS],
    first: &'a [u16; FIRSTS],
    p: u8,
    v: u16,
) -> Reply
    ensures { LeadsBy (λ s p. suspend_result s p v) first.now bytes.old words.old p
        bytes.new words.new result }
{
    counts::set_status(bytes, words, first, p, settled(v));
    set_callback(bytes, 0, 0, 0);
    if v == 0 {
        return finished(p, 0);
    }
    if passing(v) {
        return finished(p, v);
    }
    set_error(words, p, magnitude(v));
    finished(p, v)
}
