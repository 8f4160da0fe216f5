// How many parents stand above a device.
#![tactic(auto)]

ghost use Rattle.parents.specs.Parents.{Above};

use memory::BYTES;
use memory_rows::parent;

// How many parents stand above device p. A parent's number is lower.
pub fn parents_above<'a>(bytes: &'a [u8; BYTES], p: u8) -> u8
    ensures { Above bytes.now p result }
{
    let q = parent(bytes, p);
    if p <= q {
        return 0;
    }
    parents_above(bytes, q) + 1
}
