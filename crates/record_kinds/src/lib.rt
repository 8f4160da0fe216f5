// A record's kind: the table of kinds, refusals 11 to 13, and which kinds wait while a callback is open.
#![tactic(auto)]

ghost use Rattle.std.specs.Prelude.{◌≡◌, not, List, ℕ, ◌≤◌, eqb};
ghost use Rattle.model.specs.Logic.{◌and◌};
ghost use Rattle.model.specs.Records.{LAST, kind_of, allowed, fault};
ghost use Rattle.model.specs.Steps.{busy};
ghost use Rattle.memory.specs.Layout.{state_in};
ghost use Rattle.record_kinds.specs.Kinds.{rec_of, refusal_of, fault_of};

use memory::BYTES;

// A record: its value is the 16-bit number as it stands.
#[derive(Clone, Copy)]
pub struct Record {
    pub kind: u8,
    pub device: u8,
    pub value: u16,
}

// Refusals 11 to 13: no such kind, no such device (or one other than 0 for a kind about the whole bench), a value beyond its kind's bounds.
#[derive(Clone, Copy, Debug, PartialEq, Eq)]
pub enum Refusal {
    Kind,
    Device,
    Value,
}

impl Refusal {
    // Document 01's number of a refusal.
    pub fn number(self) -> u16
        ensures { result ≡ refusal_of self }
    {
        match self {
            Refusal::Kind => 11,
            Refusal::Device => 12,
            Refusal::Value => 13,
        }
    }
}

// ---- the table of kinds

// How many kinds there are, with 0, which is none; the greatest; and the kind of a callback's result.
const KINDS: usize = 14;

const LAST: u8 = 13;

pub const RESULT: u8 = 13;

// The least and greatest value allowed.
#[derive(Clone, Copy)]
struct Bounds(i16, i16);

// The least and greatest value allowed for each kind: a table of pairs indexed by the kind, a form that the project keeps. The next two tables
// stand beside it.
const BOUNDS: [Bounds; KINDS] = [
    Bounds(0, 0),
    Bounds(0, 0),
    Bounds(0, 0),
    Bounds(0, 0),
    Bounds(0, 0),
    Bounds(0, 0),
    Bounds(0, 0),
    Bounds(0, 0),
    Bounds(0, 0),
    Bounds(0, 0),
    Bounds(0, 0),
    Bounds(0, 0),
    Bounds(0, 1),
    Bounds(-4095, 0),
];

// The kinds that are about the whole bench, so that device 0 alone may be named.
const WHOLE: [bool; KINDS] = [
    false, false, false, false, false, false, false, false, false, false, false, false, false,
    false,
];

// The kinds that are answered also while a callback is open.
const ALWAYS: [bool; KINDS] = [
    false, false, false, false, false, false, false, false, false, false, false, false, false, true,
];

// The value lies in its kind's bounds.
fn allowed(kind: u8, value: u16) -> bool
    requires { kind ≤ LAST }
    ensures { result ≡ allowed kind value }
{
    // every kind allows 0, and most records have it
    if value == 0 {
        return true;
    }
    let Bounds(least, greatest) = BOUNDS[usize::from(kind)];
    let v = value.cast_signed();
    (least <= v) & (v <= greatest)
}

// The kind is about the whole bench, and the device is not 0.
fn misplaced(kind: u8, device: u8) -> bool
    requires { kind ≤ LAST }
    ensures { result ≡ ((kind_of kind).whole and not (eqb device 0)) }
{
    WHOLE[usize::from(kind)] & (device != 0)
}

// Refusals 11 to 13 of a record, of n devices.
pub fn fault(n: u8, r: Record) -> Result<(), Refusal>
    ensures { fault_of result ≡ fault n (rec_of r) }
{
    if r.kind < 1 || LAST < r.kind {
        return Err(Refusal::Kind);
    }
    if n <= r.device || misplaced(r.kind, r.device) {
        return Err(Refusal::Device);
    }
    if !allowed(r.kind, r.value) {
        return Err(Refusal::Value);
    }
    Ok(())
}

// A callback is open, and the kind is not answered meanwhile; of no such kind, none is.
pub fn busy<'a>(bytes: &'a [u8; BYTES], kind: u8) -> bool
    ensures { (words : List ℕ) → result ≡ busy (state_in bytes.now words) kind }
{
    memory::callback(bytes) != 0 && (KINDS <= usize::from(kind) || !ALWAYS[usize::from(kind)])
}
