// How large the memory of a bench is, for the tests.
#![tactic(auto)]

ghost use Rattle.std.specs.Prelude.{◌≡◌};
ghost use Rattle.memory.specs.Layout.{BYTES, WORDS};

use memory::{BYTES, WORDS};

// How many bytes a bench has, and how many words. `as`: constants, and the library's `try_from` would answer what cannot fail.
#[unsafe(no_mangle)]
pub extern "C" fn tests_bytes() -> u32
    ensures { result ≡ BYTES }
{
    BYTES as u32
}

#[unsafe(no_mangle)]
pub extern "C" fn tests_words() -> u32
    ensures { result ≡ WORDS }
{
    WORDS as u32
}
