// Kinds 10, 11 and 12: status and flag set from outside.
#![tactic(auto)]

ghost use Rattle.std.specs.Prelude.{◌≡◌, List, ℕ, ◌<◌};
ghost use Rattle.model.specs.Limits.{LINKS};
ghost use Rattle.model.specs.Requests.{running, parent_down, set_active, needed, set_suspended};
ghost use Rattle.memory.specs.Layout.{state_in};
ghost use Rattle.request_answer.specs.Promises.{LeadsBy};
ghost use Rattle.request_set.specs.Sets.{link_down, inactive_with_children, Down, IgnoreLeads};

use links::FIRSTS;
use memory::{BYTES, WORDS};
use memory_links::{flags, supplier};
use memory_rows::{children, depth, error, ignore, linked, parent, status};
use memory_stores::{set_error, set_ignore};
use model::{ACTIVE, EAGAIN, EBUSY, LINKS, NONE, SUSPENDED};
use request_answer::{Reply, finished};
use suspend_test::has_children;

// Disable depth 0 and no error: the status of device p cannot be set.
fn running<'a>(bytes: &'a [u8; BYTES], words: &'a [u32; WORDS], p: u8) -> bool
    ensures { result ≡ running (state_in bytes.now words.now) p }
{
    (depth(bytes, p) == 0) & (error(words, p) == 0)
}

// The parent of device p, if it has one, counts its children and is not active.
fn parent_down<'a>(bytes: &'a [u8; BYTES], p: u8) -> bool
    ensures { (words : List ℕ) → result ≡ parent_down (state_in bytes.now words) p }
{
    let q = parent(bytes, p);
    let down = (ignore(bytes, q) == 0) & (status(bytes, q) != ACTIVE);
    (q != NONE) & down
}

// Link i is a runtime link, and its supplier is not active.
fn link_down<'a>(bytes: &'a [u8; BYTES], i: usize) -> bool
    requires { i < LINKS }
    ensures { (words : List ℕ) → result ≡ link_down (state_in bytes.now words) i }
{
    let q = supplier(bytes, i);
    (flags(bytes, i) % 2 == 1) & (status(bytes, q) != ACTIVE)
}

// A runtime supplier of device p is not active.
fn supplier_down<'a>(bytes: &'a [u8; BYTES], first: &'a [u16; FIRSTS], p: u8) -> bool
    ensures { Down first.now bytes.now p result }
{
    let at = usize::from(p);
    let begin = usize::from(first[at]);
    let end = usize::from(first[at + 1]);
    if LINKS < end {
        return true;
    }
    for i in begin..end {
        if link_down(bytes, i) {
            return true;
        }
    }
    false
}

// Kind 10.
pub fn set_active<'a>(
    bytes: &mut [u8; BYTES],
    words: &mut [u32; WORDS],
    first: &'a [u16; FIRSTS],
    p: u8,
) -> Reply
    ensures { LeadsBy set_active first.now bytes.old words.old p bytes.new words.new result }
{
    if running(bytes, words, p) {
        return finished(p, EAGAIN);
    }
    if parent_down(bytes, p) {
        return finished(p, EBUSY);
    }
    if supplier_down(bytes, first, p) {
        return finished(p, EBUSY);
    }
    counts::set_status(bytes, words, first, p, ACTIVE);
    set_error(words, p, 0);
    finished(p, 0)
}

// Device p has powered children that are not ignored, or runtime links from powered consumers.
fn needed<'a>(bytes: &'a [u8; BYTES], words: &'a [u32; WORDS], p: u8) -> bool
    ensures { result ≡ needed (state_in bytes.now words.now) p }
{
    has_children(bytes, p) | (0 < linked(words, p))
}

// Kind 11.
pub fn set_suspended<'a>(
    bytes: &mut [u8; BYTES],
    words: &mut [u32; WORDS],
    first: &'a [u16; FIRSTS],
    p: u8,
) -> Reply
    ensures { LeadsBy set_suspended first.now bytes.old words.old p bytes.new words.new result }
{
    if running(bytes, words, p) {
        return finished(p, EAGAIN);
    }
    if needed(bytes, words, p) {
        return finished(p, EBUSY);
    }
    counts::set_status(bytes, words, first, p, SUSPENDED);
    set_error(words, p, 0);
    finished(p, 0)
}

// Device p is not active and has powered children, counted or not.
fn inactive_with_children<'a>(bytes: &'a [u8; BYTES], p: u8) -> bool
    ensures { (words : List ℕ) → result ≡ inactive_with_children (state_in bytes.now words) p }
{
    (status(bytes, p) != ACTIVE) & (0 < children(bytes, p))
}

// Kind 12, to v, a value that the kind allows.
pub fn ignore_children(bytes: &mut [u8; BYTES], p: u8, v: u16) -> Reply
    ensures { IgnoreLeads v bytes.old p bytes.new result }
{
    if 0 < v {
        set_ignore(bytes, p, 1);
        return finished(p, 0);
    }
    if inactive_with_children(bytes, p) {
        return finished(p, EBUSY);
    }
    set_ignore(bytes, p, 0);
    finished(p, 0)
}
