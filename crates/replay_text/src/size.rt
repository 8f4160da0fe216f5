// Numbers in decimal digits, and the size of a piece, as an argument gives it.
ghost use Rattle.std.specs.Prelude.{◌≡◌};
ghost use Rattle.replay_text.specs.Sizes.{is_digit, digit_of, number_of, size_of};

use std::cmp::min;

// The greatest size of a piece.
pub const MOST: usize = 4096;

// Whether a byte is a decimal digit.
fn is_digit(b: u8) -> bool
    ensures { result ≡ is_digit b }
{
    (b'0' <= b) & (b <= b'9')
}

// The value of a decimal digit; none of any other byte.
fn digit(b: u8) -> Option<usize>
    ensures { result ≡ digit_of b }
{
    if !is_digit(b) {
        return None;
    }
    Some(usize::from(b - b'0'))
}

// The number that decimal digits stand for, `most` in place of a greater one; none where a byte is no digit. No digits stand for 0.
pub fn number(text: &[u8], most: u16) -> Option<usize>
    ensures { result ≡ number_of most text.now }
{
    let most = usize::from(most);
    let mut value: usize = 0;
    for b in text {
        value = min(10 * value + digit(*b)?, most);
    }
    Some(value)
}

// The size that the text gives: a number from 1 to 4,096 in decimal digits; none where it gives no such number.
pub fn read(text: &[u8]) -> Option<usize>
    ensures { result ≡ size_of text.now }
{
    let mut value: usize = 0;
    for b in text {
        value = 10 * value + digit(*b)?;
        let large = value > MOST;
        if large {
            return None;
        }
    }
    (value != 0).then_some(value)
}
