// The soundness test of a bench, whole ("A bench is sound exactly when ..", document 01): the columns by `sound_columns`, then the carried
// bytes and the open callback.
#![tactic(auto)]

ghost use Rattle.std.specs.Prelude.{◌≡◌, ◌<◌};
ghost use Rattle.model.specs.SoundTest.{carried_test, steady_test, none_test, callback_test, sound_test};
ghost use Rattle.memory.specs.Layout.{state_in};
ghost use Rattle.sound_callback.specs.Parts.{spare_test, steady_but, open_test, of_asked, of_resume, Tells, Judges, SoundBy};

use links::FIRSTS;
use memory::{BYTES, WORDS, asked, devices, target};
use memory_rows::status;
use model::{ACTIVE, RESUMING, SUSPENDING};
use suspend_test::suspend_test;

// ---- the carried bytes

// Carried byte i is 0 where it is not used.
fn spare_good<'a>(bytes: &'a [u8; BYTES], i: usize) -> bool
    requires { i < 3 }
    ensures { Tells (λ s. spare_test s.carry i) bytes.now result }
{
    if i < usize::from(memory::used(bytes)) {
        return true;
    }
    memory::carried(bytes, i) == 0
}

// At most three bytes are carried, and those not used are 0.
fn carried_good<'a>(bytes: &'a [u8; BYTES]) -> bool
    ensures { Tells (λ s. carried_test s.carry) bytes.now result }
{
    let mut good = true;
    for i in 0..3 {
        good = spare_good(bytes, i) & good;
    }
    (memory::used(bytes) <= 3) & good
}

// ---- devices in change

// Device q is not in change.
fn steady<'a>(bytes: &'a [u8; BYTES], q: u8) -> bool
    ensures { Tells (λ s. steady_test s q) bytes.now result }
{
    let v = status(bytes, q);
    (v != RESUMING) & (v != SUSPENDING)
}

// No device is in change but the one left out, if any.
fn others_steady<'a>(bytes: &'a [u8; BYTES], left: Option<u8>) -> bool
    ensures { Tells (λ s. steady_but s left) bytes.now result }
{
    let n = devices(bytes);
    let mut good = true;
    for q in 0..n {
        good = ((Some(q) == left) | steady(bytes, q)) & good;
    }
    good
}

// ---- the open callback

// No callback is open.
fn none_open<'a>(bytes: &'a [u8; BYTES]) -> bool
    ensures { Tells none_test bytes.now result }
{
    let none = (target(bytes) == 0) & others_steady(bytes, None);
    (asked(bytes) == 0) & none
}

// A callback of the device asked is open: the device is its own target and has the status v, it passes the suspend test, and no device is
// in change but the one left out, if any.
fn asked_open<'a>(bytes: &'a [u8; BYTES], words: &'a [u32; WORDS], v: u8, left: Option<u8>) -> bool
    ensures { result ≡ of_asked (open_test v left) (state_in bytes.now words.now) }
{
    let p = asked(bytes);
    let still = others_steady(bytes, left) & (suspend_test(bytes, words, p) == 0);
    let turned = (status(bytes, p) == v) & still;
    let own = (target(bytes) == p) & turned;
    (p < devices(bytes)) & own
}

// A resume callback of the device asked is open: it is the lowest of the wake set of the target, where nothing is barred.
fn resume_open<'a>(
    bytes: &'a [u8; BYTES],
    words: &'a [u32; WORDS],
    first: &'a [u16; FIRSTS],
) -> bool
    ensures { Judges of_resume first.now bytes.now words.now result }
{
    let t = target(bytes);
    let p = asked(bytes);
    if devices(bytes) <= t {
        return false;
    }
    let found = wakeset::reached(bytes, words, first, t);
    if found.low != p {
        return false;
    }
    if status(bytes, p) != RESUMING {
        return false;
    }
    let clear = !found.barred & !wake_rules::bars(bytes, words, t);
    others_steady(bytes, Some(p)) & clear
}

// The open callback agrees with the devices. In a suspend callback, of kind 1, the device asked is suspending and no other is in change;
// in an idle callback, of kind 3, it is active and none is. The numbers are those of the memory's byte (document 01).
fn callback_good<'a>(
    bytes: &'a [u8; BYTES],
    words: &'a [u32; WORDS],
    first: &'a [u16; FIRSTS],
) -> bool
    ensures { Judges callback_test first.now bytes.now words.now result }
{
    match memory::callback(bytes) {
        0 => none_open(bytes),
        1 => asked_open(bytes, words, SUSPENDING, Some(asked(bytes))),
        2 => resume_open(bytes, words, first),
        3 => asked_open(bytes, words, ACTIVE, None),
        _ => false,
    }
}

// The bench is sound, by the index of its links. The index is looked at only after the columns passed: then it is right.
pub fn sound_by<'a>(
    bytes: &'a [u8; BYTES],
    words: &'a [u32; WORDS],
    first: &'a [u16; FIRSTS],
) -> bool
    ensures { SoundBy first.now bytes.now words.now result }
{
    if !sound_columns::well_kept(bytes, words) {
        return false;
    }
    carried_good(bytes) & callback_good(bytes, words, first)
}

// The bench is sound.
pub fn sound<'a>(bytes: &'a [u8; BYTES], words: &'a [u32; WORDS]) -> bool
    ensures { result ≡ sound_test (state_in bytes.now words.now) }
{
    let first = links::index(bytes, words);
    sound_by(bytes, words, &first)
}
