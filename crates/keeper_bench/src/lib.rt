// The keeper's bench: its memory, the soundness test, and a method for each request and result.
#![tactic(auto)]

ghost use Rattle.keeper_bench.specs.Translate.{state_of};
ghost use Rattle.keeper_bench.specs.Verdict.{Verdict};

pub mod methods;

use memory::{BYTES, WORDS};

// The bench: how the devices ("parts" of document 01) hang together, the state of each, the open callback and the carried bytes, as they
// stand in the memory.
#[derive(Clone, Copy)]
pub struct Bench {
    pub bytes: [u8; BYTES],
    pub words: [u32; WORDS],
}

impl Bench {
    // The soundness test.
    pub fn sound(self) -> bool
        ensures { Verdict (state_of self) result }
    {
        sound_callback::sound(&self.bytes, &self.words)
    }
}
