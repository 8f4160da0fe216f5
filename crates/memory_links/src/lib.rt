// A reader and a setter for each link column of the memory, by the number of a link. Each names its page; where the page stands `memory`
// knows. Past the rows a reader answers 0 and a setter changes nothing. A function for each: each promises another column of the state.
#![tactic(auto, unfolding(memory::specs::Layout::state_in))]

ghost use Rattle.std.specs.Prelude.{◌≡◌, List, ℕ, get_or};
ghost use Rattle.memory.specs.Layout.{state_in, BytesBecome};
ghost use Rattle.memory.specs.Cells.{with_consumer, with_supplier, with_flags};

use memory::{BYTES, CONSUMER, FLAGS, SUPPLIER, link_at, set_link_at};

pub fn consumer<'a>(bytes: &'a [u8; BYTES], i: usize) -> u8
    ensures { (words : List ℕ) → result ≡ get_or (state_in bytes.now words).wiring.consumer i 0 }
{
    link_at(bytes, CONSUMER, i)
}

pub fn supplier<'a>(bytes: &'a [u8; BYTES], i: usize) -> u8
    ensures { (words : List ℕ) → result ≡ get_or (state_in bytes.now words).wiring.supplier i 0 }
{
    link_at(bytes, SUPPLIER, i)
}

pub fn flags<'a>(bytes: &'a [u8; BYTES], i: usize) -> u8
    ensures { (words : List ℕ) → result ≡ get_or (state_in bytes.now words).wiring.flags i 0 }
{
    link_at(bytes, FLAGS, i)
}

#[tactic(auto, using(memory::proofs::Stores::put_consumer))]
pub fn set_consumer(bytes: &mut [u8; BYTES], i: usize, v: u8)
    ensures { BytesBecome (λ s. with_consumer s i v) bytes.old bytes.new }
{
    set_link_at(bytes, CONSUMER, i, v);
}

#[tactic(auto, using(memory::proofs::Stores::put_supplier))]
pub fn set_supplier(bytes: &mut [u8; BYTES], i: usize, v: u8)
    ensures { BytesBecome (λ s. with_supplier s i v) bytes.old bytes.new }
{
    set_link_at(bytes, SUPPLIER, i, v);
}

#[tactic(auto, using(memory::proofs::Stores::put_flags))]
pub fn set_flags(bytes: &mut [u8; BYTES], i: usize, v: u8)
    ensures { BytesBecome (λ s. with_flags s i v) bytes.old bytes.new }
{
    set_link_at(bytes, FLAGS, i, v);
}
