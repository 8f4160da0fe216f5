// Numbers as a C host has them: results, signed, and parts, of 32 bits.
#![tactic(auto)]

ghost use Rattle.std.specs.Prelude.{◌≡◌, ◌%◌, ◌/◌, pos, neg_ℤ};
ghost use Rattle.c_calls.specs.Numbers.{RANGE, answered, device_of};

// A refusal's number, negated.
pub fn refused(number: u8) -> i32
    ensures { result ≡ neg_ℤ (pos number) }
{
    -i32::from(number)
}

// What is answered. Whatever the keeper answers is below 2^31.
pub fn given(x: u64) -> i32
    ensures { result ≡ pos (x % RANGE) }
{
    (x % 2147483648) as i32
}

// An answer to a question, which comes as the refusal's number and 256 times what is told.
pub fn signed(code: u64) -> i32
    ensures { result ≡ answered (code % 256) (code / 256 % RANGE) }
{
    let number = (code % 256) as u8;
    if number != 0 {
        return refused(number);
    }
    given(code / 256)
}

// The device of a part number: one that no bench has for any number past a byte's.
pub fn device(part: u32) -> u8
    ensures { result ≡ device_of part }
{
    u8::try_from(part).unwrap_or(255)
}
