// What the wake set asks of one device: whether it rests on a parent that sleeps, or by a link on a supplier that sleeps; and whether it
// is barred.
#![tactic(auto)]

ghost use Rattle.std.specs.Prelude.{◌≡◌, List, ℕ};
ghost use Rattle.model.specs.Requests.{barred};
ghost use Rattle.memory.specs.Layout.{state_in};
ghost use Rattle.wake_rules.specs.Rests.{sleeping_parent, sleeping_supplier};

use memory::{BYTES, WORDS};
use memory_links::{flags, supplier};
use memory_rows::{depth, error, ignore, parent, status};
use model::ACTIVE;

// ---- what a device rests on

// Device p rests on its parent, which counts its children, and the parent sleeps. A parent's number is lower.
pub fn on_parent<'a>(bytes: &'a [u8; BYTES], p: u8) -> bool
    ensures { (words : List ℕ) → result ≡ sleeping_parent (state_in bytes.now words) p }
{
    let q = parent(bytes, p);
    let counted = (q < p) & (ignore(bytes, q) == 0);
    counted & (status(bytes, q) < ACTIVE)
}

// Link i, of device p, is a runtime link, and its supplier sleeps. A supplier's number is lower.
pub fn on_supplier<'a>(bytes: &'a [u8; BYTES], p: u8, i: usize) -> bool
    ensures { (words : List ℕ) → result ≡ sleeping_supplier (state_in bytes.now words) p i }
{
    let q = supplier(bytes, i);
    let runtime = (q < p) & (flags(bytes, i) % 2 == 1);
    runtime & (status(bytes, q) < ACTIVE)
}

// ---- what bars a device

// Device q has an error or a disable depth above 0.
pub fn bars<'a>(bytes: &'a [u8; BYTES], words: &'a [u32; WORDS], q: u8) -> bool
    ensures { result ≡ barred (state_in bytes.now words.now) q }
{
    (0 < error(words, q)) | (0 < depth(bytes, q))
}
