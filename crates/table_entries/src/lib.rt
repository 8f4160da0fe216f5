// The bytes of a device table ("part table" of document 01), of any length, and of its entries; and the rules of an entry by itself.
#![tactic(auto)]

ghost use Rattle.std.specs.Prelude.{◌≡◌};
ghost use Rattle.model.specs.Table.{byte_at, device_byte, link_byte, parent_good, ends_good};

use model::NONE;

// Byte k of a table, 0 past its end.
pub fn byte_at(t: &[u8], k: usize) -> u8
    ensures { result ≡ byte_at t.now k }
{
    t.get(k).copied().unwrap_or(0)
}

// A byte of the entry of device p: field 0 the parent, 1 the flags. Fields go by number, as in `device_byte` of the model, for any u8.
pub fn device_byte(t: &[u8], field: u8, p: u8) -> u8
    ensures { result ≡ device_byte t.now field p }
{
    byte_at(t, 7 + 2 * usize::from(p) + usize::from(field))
}

// A byte of the entry of link i: field 0 the consumer, 1 the supplier, 2 the flags.
pub fn link_byte(t: &[u8], field: u8, i: u16) -> u8
    ensures { result ≡ link_byte t.now field i }
{
    let n = usize::from(byte_at(t, 5));
    byte_at(t, 7 + 2 * n + 3 * usize::from(i) + usize::from(field))
}

// A parent is none, or lower than the device's own number.
pub fn parent_good(p: u8, parent: u8) -> bool
    ensures { result ≡ parent_good p parent }
{
    (parent == NONE) | (parent < p)
}

// The consumer is one of n devices, and the supplier lower than the consumer.
pub fn ends_good(n: u8, consumer: u8, supplier: u8) -> bool
    ensures { result ≡ ends_good n consumer supplier }
{
    (consumer < n) & (supplier < consumer)
}
