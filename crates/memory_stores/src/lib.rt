// A setter for each device column of the memory, by the number of a device, which always has a row. Each names its page; where the page
// stands `memory` knows. A function for each: each promises another column of the state.
#![tactic(auto)]

ghost use Rattle.model.specs.State.{with_holds, with_depth, with_error, with_ignore};
ghost use Rattle.memory.specs.Layout.{BytesBecome, WordsBecome};
ghost use Rattle.memory.specs.Cells.{with_status_cell, with_children, with_linked, with_parent};

use memory::{
    BYTES, CHILDREN, DEPTH, ERROR, HOLDS, IGNORE, LINKED, PARENT, STATUS, WORDS, set_byte_at,
    set_word_at,
};

#[tactic(auto, using(memory::proofs::Stores::put_parent))]
pub fn set_parent(bytes: &mut [u8; BYTES], p: u8, v: u8)
    ensures { BytesBecome (λ s. with_parent s p v) bytes.old bytes.new }
{
    set_byte_at(bytes, PARENT, usize::from(p), v);
}

#[tactic(auto, using(memory::proofs::Stores::put_ignore))]
pub fn set_ignore(bytes: &mut [u8; BYTES], p: u8, v: u8)
    ensures { BytesBecome (λ s. with_ignore s p v) bytes.old bytes.new }
{
    set_byte_at(bytes, IGNORE, usize::from(p), v);
}

#[tactic(auto, using(memory::proofs::Stores::put_status))]
pub fn set_status_cell(bytes: &mut [u8; BYTES], p: u8, v: u8)
    ensures { BytesBecome (λ s. with_status_cell s p v) bytes.old bytes.new }
{
    set_byte_at(bytes, STATUS, usize::from(p), v);
}

#[tactic(auto, using(memory::proofs::Stores::put_depth))]
pub fn set_depth(bytes: &mut [u8; BYTES], p: u8, v: u8)
    ensures { BytesBecome (λ s. with_depth s p v) bytes.old bytes.new }
{
    set_byte_at(bytes, DEPTH, usize::from(p), v);
}

#[tactic(auto, using(memory::proofs::Stores::put_children))]
pub fn set_children(bytes: &mut [u8; BYTES], p: u8, v: u8)
    ensures { BytesBecome (λ s. with_children s p v) bytes.old bytes.new }
{
    set_byte_at(bytes, CHILDREN, usize::from(p), v);
}

#[tactic(auto, using(memory::proofs::Stores::put_holds))]
pub fn set_holds(words: &mut [u32; WORDS], p: u8, v: u32)
    ensures { WordsBecome (λ s. with_holds s p v) words.old words.new }
{
    set_word_at(words, HOLDS, usize::from(p), v);
}

#[tactic(auto, using(memory::proofs::Stores::put_error))]
pub fn set_error(words: &mut [u32; WORDS], p: u8, v: u32)
    ensures { WordsBecome (λ s. with_error s p v) words.old words.new }
{
    set_word_at(words, ERROR, usize::from(p), v);
}

#[tactic(auto, using(memory::proofs::Stores::put_linked))]
pub fn set_linked(words: &mut [u32; WORDS], p: u8, v: u32)
    ensures { WordsBecome (λ s. with_linked s p v) words.old words.new }
{
    set_word_at(words, LINKED, usize::from(p), v);
}
