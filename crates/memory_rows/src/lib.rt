// A reader for each device column of the memory, by the number of a device, which always has a row. Each names its page; where the page
// stands `memory` knows. A function for each: each promises another column of the state.
#![tactic(auto, unfolding(memory::specs::Layout::state_in))]

ghost use Rattle.std.specs.Prelude.{◌≡◌, List, ℕ, get_or};
ghost use Rattle.model.specs.State.{status_at, holds_at, depth_at, error_at, children_at, linked_at};
ghost use Rattle.memory.specs.Layout.{state_in};

use memory::{
    BYTES, CHILDREN, DEPTH, ERROR, HOLDS, IGNORE, LINKED, PARENT, STATUS, WORDS, byte_at, word_at,
};

pub fn parent<'a>(bytes: &'a [u8; BYTES], p: u8) -> u8
    ensures { (words : List ℕ) → result ≡ get_or (state_in bytes.now words).wiring.parent p 0 }
{
    byte_at(bytes, PARENT, usize::from(p))
}

pub fn ignore<'a>(bytes: &'a [u8; BYTES], p: u8) -> u8
    ensures { (words : List ℕ) → result ≡ get_or (state_in bytes.now words).wiring.ignore p 0 }
{
    byte_at(bytes, IGNORE, usize::from(p))
}

pub fn status<'a>(bytes: &'a [u8; BYTES], p: u8) -> u8
    ensures { (words : List ℕ) → result ≡ status_at (state_in bytes.now words) p }
{
    byte_at(bytes, STATUS, usize::from(p))
}

pub fn depth<'a>(bytes: &'a [u8; BYTES], p: u8) -> u8
    ensures { (words : List ℕ) → result ≡ depth_at (state_in bytes.now words) p }
{
    byte_at(bytes, DEPTH, usize::from(p))
}

pub fn children<'a>(bytes: &'a [u8; BYTES], p: u8) -> u8
    ensures { (words : List ℕ) → result ≡ children_at (state_in bytes.now words) p }
{
    byte_at(bytes, CHILDREN, usize::from(p))
}

pub fn holds<'a>(words: &'a [u32; WORDS], p: u8) -> u32
    ensures { (bytes : List ℕ) → result ≡ holds_at (state_in bytes words.now) p }
{
    word_at(words, HOLDS, usize::from(p))
}

pub fn error<'a>(words: &'a [u32; WORDS], p: u8) -> u32
    ensures { (bytes : List ℕ) → result ≡ error_at (state_in bytes words.now) p }
{
    word_at(words, ERROR, usize::from(p))
}

pub fn linked<'a>(words: &'a [u32; WORDS], p: u8) -> u32
    ensures { (bytes : List ℕ) → result ≡ linked_at (state_in bytes words.now) p }
{
    word_at(words, LINKED, usize::from(p))
}
