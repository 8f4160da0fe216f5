// The rules of the soundness test for every device and every link, over a memory of any contents: a parent and a supplier have lower
// numbers, and what a device rests on is powered. `every` goes through all of them.
#![tactic(auto)]

ghost use Rattle.std.specs.Prelude.{◌≡◌};
ghost use Rattle.model.specs.Logic.{all};
ghost use Rattle.model.specs.SoundTest.{parent_supplies, link_supplies};
ghost use Rattle.sound_rules.specs.Parts.{parent_fits, ends_fit, child_rests, link_rests};
ghost use Rattle.sound_rules.specs.Sayings.{Says};

use memory::BYTES;
use model::{ACTIVE, NONE, SUSPENDED};
use sound_rows::every;
use table_entries::{ends_good, parent_good};

// ---- lower numbers

// Each of the n devices has no parent or one with a lower number. `as`, since p is below n and so fits: `try_from` would answer what cannot fail.
pub fn parents_good<'a>(bytes: &'a [u8; BYTES], n: u8) -> bool
    ensures { Says (λ s. all (parent_fits s) n) bytes.now result }
{
    every(usize::from(n), |p| {
        let p = p as u8;
        parent_good(p, memory_rows::parent(bytes, p))
    })
}

// Each of the m links goes from one of n devices to one with a lower number.
pub fn links_fit<'a>(bytes: &'a [u8; BYTES], n: u8, m: usize) -> bool
    ensures { Says (λ s. all (ends_fit n s) m) bytes.now result }
{
    every(m, |i| {
        let consumer = memory_links::consumer(bytes, i);
        ends_good(n, consumer, memory_links::supplier(bytes, i))
    })
}

// ---- supply

// A device of this status rests on its parent, and that is powered: `up` is the parent's status.
fn child_rests(status: u8, parent: u8, ignore: u8, up: u8) -> bool
    ensures { result ≡ child_rests status parent ignore up }
{
    (status == SUSPENDED) | (parent == NONE) | (ignore != 0) | (ACTIVE <= up)
}

// The consumer of a runtime link rests on the supplier, and that is powered: by the statuses of both.
fn link_rests(consumer: u8, flags: u8, supplier: u8) -> bool
    ensures { result ≡ link_rests consumer flags supplier }
{
    (consumer == SUSPENDED) | (flags % 2 != 1) | (ACTIVE <= supplier)
}

// What device p rests on above it is powered.
fn parent_supplies<'a>(bytes: &'a [u8; BYTES], p: u8) -> bool
    ensures { Says (λ s. parent_supplies s.wiring s.devices.status p) bytes.now result }
{
    let q = memory_rows::parent(bytes, p);
    child_rests(
        memory_rows::status(bytes, p),
        q,
        memory_rows::ignore(bytes, q),
        memory_rows::status(bytes, q),
    )
}

// What the n devices rest on above them is powered.
pub fn parents_supply<'a>(bytes: &'a [u8; BYTES], n: u8) -> bool
    ensures { Says (λ s. all (parent_supplies s.wiring s.devices.status) n) bytes.now result }
{
    every(usize::from(n), |p| parent_supplies(bytes, p as u8))
}

// What link i rests on is powered.
fn link_supplies<'a>(bytes: &'a [u8; BYTES], i: usize) -> bool
    ensures { Says (λ s. link_supplies s.wiring s.devices.status i) bytes.now result }
{
    let c = memory_links::consumer(bytes, i);
    let s = memory_links::supplier(bytes, i);
    link_rests(
        memory_rows::status(bytes, c),
        memory_links::flags(bytes, i),
        memory_rows::status(bytes, s),
    )
}

// What the m links rest on is powered.
pub fn links_supply<'a>(bytes: &'a [u8; BYTES], m: usize) -> bool
    ensures { Says (λ s. all (link_supplies s.wiring s.devices.status) m) bytes.now result }
{
    every(m, |i| link_supplies(bytes, i))
}
