// The public questions on a bench. Each is refused first where the bench is not sound (21), then where a device is unknown (24).
// `status_of`, `user_holds` and `in_wake_set` hand a refusal on by arms, the others by `?`: so a must-fail edit can change what a status, a number
// or a membership alone is told of a refusal.
#![tactic(auto)]

ghost use Rattle.std.specs.Prelude.{◌≡◌, not, leb};
ghost use Rattle.model.specs.Logic.{◌or◌};
ghost use Rattle.model.specs.Questions.{tell_status, tell_holds, tell_usage, tell_children, tell_wake, tell_above};
ghost use Rattle.keeper_bench.specs.Translate.{state_of};
ghost use Rattle.keeper_answers.specs.Told.{Checked, status_told, number_told, member_told};

use keeper_answers::{Refusal, Status};
use keeper_bench::Bench;
use memory::devices;
use memory_rows::{children, holds, linked, status};
use suspend_test::usage;

// The checks of every question: the bench is sound, and the devices that it names are known.
fn checked(b: Bench, known: bool) -> Result<(), Refusal>
    ensures { Checked (state_of b) known result }
{
    if !b.sound() {
        return Err(Refusal::Unsound);
    }
    if !known {
        return Err(Refusal::Unknown);
    }
    Ok(())
}

// The checks of a question about device p, and of one about p and q.
fn about(b: Bench, p: u8) -> Result<(), Refusal>
    ensures { Checked (state_of b) (not (leb (state_of b).wiring.n p)) result }
{
    checked(b, p < devices(&b.bytes))
}

fn about_both(b: Bench, p: u8, q: u8) -> Result<(), Refusal>
    ensures { Checked (state_of b) (not (leb (state_of b).wiring.n p or leb (state_of b).wiring.n q)) result }
{
    let n = devices(&b.bytes);
    checked(b, (p < n) & (q < n))
}

pub fn status_of(b: Bench, device: u8) -> Result<Status, Refusal>
    ensures { status_told result ≡ tell_status (state_of b) device }
{
    match about(b, device) {
        Ok(()) => Ok(Status::from_number(status(&b.bytes, device))),
        Err(refusal) => Err(refusal),
    }
}

pub fn user_holds(b: Bench, device: u8) -> Result<u32, Refusal>
    ensures { number_told result ≡ tell_holds (state_of b) device }
{
    match about(b, device) {
        Ok(()) => Ok(holds(&b.words, device)),
        Err(Refusal::Unsound) => Err(Refusal::Unsound),
        Err(Refusal::Unknown) => Err(Refusal::Unknown),
    }
}

// User holds, and runtime links from powered consumers: on a sound bench fewer than 2^32.
pub fn usage_count(b: Bench, device: u8) -> Result<u32, Refusal>
    ensures { number_told result ≡ tell_usage (state_of b) device }
{
    about(b, device)?;
    let uses = usage(holds(&b.words, device), linked(&b.words, device));
    Ok(uses as u32)
}

// Powered children, also where they are ignored.
pub fn child_count(b: Bench, device: u8) -> Result<u32, Refusal>
    ensures { number_told result ≡ tell_children (state_of b) device }
{
    about(b, device)?;
    Ok(u32::from(children(&b.bytes, device)))
}

// Whether another device is a member of the device's wake set.
pub fn in_wake_set(b: Bench, device: u8, other: u8) -> Result<bool, Refusal>
    ensures { member_told result ≡ tell_wake (state_of b) device other }
{
    match about_both(b, device, other) {
        Ok(()) => {}
        Err(Refusal::Unsound) => return Err(Refusal::Unsound),
        Err(Refusal::Unknown) => return Err(Refusal::Unknown),
    }
    let first = links::index(&b.bytes, &b.words);
    let marks = wakeset::wake_set(&b.bytes, &first, device);
    Ok(marks[usize::from(other)])
}

// How many parents stand above a device.
pub fn parents_above(b: Bench, device: u8) -> Result<u32, Refusal>
    ensures { number_told result ≡ tell_above (state_of b) device }
{
    about(b, device)?;
    Ok(u32::from(parents::parents_above(&b.bytes, device)))
}
