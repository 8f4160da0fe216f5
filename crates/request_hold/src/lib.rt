// Kinds 1, 2, 3 and 5: disable depths and user holds.
#![tactic(auto)]

ghost use Rattle.std.specs.Prelude.{List, ℕ};
ghost use Rattle.model.specs.Requests.{enable, disable, get, put};
ghost use Rattle.request_answer.specs.Promises.{Does};

use memory::{BYTES, WORDS};
use memory_rows::{depth, holds};
use memory_stores::{set_depth, set_holds};
use model::{EOVERFLOW, MAX_DEPTH, MAX_HOLDS};

// The four requests are alike but for the column, the direction and the limit: one function for them would take all three, and be no plainer.
// Each gives the code of its reply, which is handed on as it is: a `Result` would be turned into the code at every call.

// Kind 1: the code it is finished with.
pub fn enable(bytes: &mut [u8; BYTES], p: u8) -> u16
    ensures { (words : List ℕ) → Does enable bytes.old words p bytes.new words result }
{
    let d = depth(bytes, p);
    if d < 1 {
        return EOVERFLOW;
    }
    set_depth(bytes, p, d - 1);
    0
}

// Kind 2.
pub fn disable(bytes: &mut [u8; BYTES], p: u8) -> u16
    ensures { (words : List ℕ) → Does disable bytes.old words p bytes.new words result }
{
    let d = depth(bytes, p);
    if MAX_DEPTH <= d {
        return EOVERFLOW;
    }
    set_depth(bytes, p, d + 1);
    0
}

// Kind 3.
pub fn get(words: &mut [u32; WORDS], p: u8) -> u16
    ensures { (bytes : List ℕ) → Does get bytes words.old p bytes words.new result }
{
    let h = holds(words, p);
    if MAX_HOLDS <= h {
        return EOVERFLOW;
    }
    set_holds(words, p, h + 1);
    0
}

// Kind 5.
pub fn put(words: &mut [u32; WORDS], p: u8) -> u16
    ensures { (bytes : List ℕ) → Does put bytes words.old p bytes words.new result }
{
    let h = holds(words, p);
    if h < 1 {
        return EOVERFLOW;
    }
    set_holds(words, p, h - 1);
    0
}
