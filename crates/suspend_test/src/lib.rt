// The suspend test, and the use count that it reads.
#![tactic(auto)]

ghost use Rattle.std.specs.Prelude.{◌≡◌, List, ℕ, ◌+◌};
ghost use Rattle.model.specs.Requests.{suspend_test};
ghost use Rattle.memory.specs.Layout.{state_in};
ghost use Rattle.suspend_test.specs.Parts.{has_children};

use basics::choose;
use memory::{BYTES, WORDS};
use memory_rows::{children, depth, error, holds, ignore, linked};
use model::{EACCES, EAGAIN, EBUSY, EINVAL};

// The use count of user holds and links: up to 32,767 and as many as there are links, so more than 16 signed bits hold.
pub fn usage(holds: u32, linked: u32) -> u64
    ensures { result ≡ holds + linked }
{
    u64::from(holds) + u64::from(linked)
}

// Powered children that count keep device p awake.
pub fn has_children<'a>(bytes: &'a [u8; BYTES], p: u8) -> bool
    ensures { (words : List ℕ) → result ≡ has_children (state_in bytes.now words) p }
{
    (0 < children(bytes, p)) & (ignore(bytes, p) == 0)
}

// The suspend test of device p: its code, 0 where it is passed. All that it reads is read first, and the code then chosen, the last test
// first: which test fails is hard to foresee, and a branch for each would cost more than the reading. A code and no `Result`: it is joined with
// the codes of the status, 1 among them.
pub fn suspend_test<'a>(bytes: &'a [u8; BYTES], words: &'a [u32; WORDS], p: u8) -> u16
    ensures { result ≡ suspend_test (state_in bytes.now words.now) p }
{
    let needed = choose(has_children(bytes, p), EBUSY, 0);
    let used = choose(0 < usage(holds(words, p), linked(words, p)), EAGAIN, needed);
    let off = choose(0 < depth(bytes, p), EACCES, used);
    choose(0 < error(words, p), EINVAL, off)
}
