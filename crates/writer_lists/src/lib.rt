// The two lists that the writer of tables is given (request One of document 02): their entries, and the answer to them.
#![tactic(auto)]

ghost use Rattle.std.specs.Prelude.{◌≡◌, ◌==◌, not};
ghost use Rattle.std.specs.List.{find, list_any, range_with_len};
ghost use Rattle.model.specs.Writing.{device_field, link_field, device_fits, link_whole, pair, link_taken, lists_answer};
ghost use Rattle.writer_answer.specs.Outcomes.{outcome_of};

use model::{DEVICES, LINKS};
use table_entries::{byte_at, ends_good, parent_good};
use writer_answer::Refusal;

// A byte of the entry of device p: field 0 the parent, 1 the flags. Fields are numbers, as in `device_field` of the model, which has every one.
fn device_field(devices: &[u8], field: u8, p: u8) -> u8
    ensures { result ≡ device_field devices.now field p }
{
    byte_at(devices, 2 * usize::from(p) + usize::from(field))
}

// A byte of the entry of link i: field 0 the consumer, 1 the supplier, 2 the flags.
pub fn link_field(links: &[u8], field: u8, i: u16) -> u8
    ensures { result ≡ link_field links.now field i }
{
    byte_at(links, 3 * usize::from(i) + usize::from(field))
}

// The entry of device p is whole and keeps the rules.
fn device_fits(devices: &[u8], p: u8) -> bool
    ensures { result ≡ device_fits devices.now p }
{
    (2 * usize::from(p) + 1 < devices.len())
        & parent_good(p, device_field(devices, 0, p))
        & (device_field(devices, 1, p) <= 1)
}

// The entry of link i is whole and keeps the rules, whatever the others are.
fn link_whole(n: u8, links: &[u8], i: u16) -> bool
    ensures { result ≡ link_whole n links.now i }
{
    (3 * usize::from(i) + 2 < links.len())
        & ends_good(n, link_field(links, 0, i), link_field(links, 1, i))
        & (link_field(links, 2, i) <= 3)
}

// Consumer and supplier of link i as one number.
fn pair_of(links: &[u8], i: u16) -> u16
    ensures { result ≡ pair links.now i }
{
    u16::from_be_bytes([link_field(links, 0, i), link_field(links, 1, i)])
}

// An earlier link has the pair of link i.
fn repeated(links: &[u8], i: u16) -> bool
    ensures { result ≡ list_any (λ j. pair links.now j == pair links.now i) (range_with_len 0 i) }
{
    let own = pair_of(links, i);
    (0..i).any(|j| pair_of(links, j) == own)
}

// Link i is whole, and no earlier link has its pair.
fn link_taken(n: u8, links: &[u8], i: u16) -> bool
    ensures { result ≡ link_taken n links.now i }
{
    link_whole(n, links, i) && !repeated(links, i)
}

// The first faulty device of n.
fn faulty_device(devices: &[u8], n: u8) -> Option<u8>
    ensures { result ≡ find (λ p. not (device_fits devices.now p)) (range_with_len 0 n) }
{
    (0..n).find(|p| !device_fits(devices, *p))
}

// The first faulty link of m.
fn faulty_link(n: u8, links: &[u8], m: u16) -> Option<u16>
    ensures { result ≡ find (λ i. not (link_taken n links.now i)) (range_with_len 0 m) }
{
    (0..m).find(|i| !link_taken(n, links, *i))
}

// The answer to the two lists, whatever the buffer: 4, then 6, then 7, or none of these.
pub fn judge(devices: &[u8], links: &[u8]) -> Result<(), Refusal>
    ensures { outcome_of result ≡ lists_answer devices.now links.now }
{
    let n = devices.len().div_ceil(2);
    let m = links.len().div_ceil(3);
    if (n < 1) | (usize::from(DEVICES) < n) | (LINKS < m) {
        return Err(Refusal::Limits);
    }
    let n = n as u8;
    if let Some(p) = faulty_device(devices, n) {
        return Err(Refusal::Device(p));
    }
    if let Some(i) = faulty_link(n, links, m as u16) {
        return Err(Refusal::Link(i));
    }
    Ok(())
}
