// Decimal numbers without leading zeros, of any length.
ghost use Rattle.std.specs.Prelude.{◌≡◌, ◌-◌, ◌<◌};
ghost use Rattle.requests.specs.Tokens.{all_digits, numeral};
ghost use Rattle.tokens.specs.Decimals.{Valued, DecimalIs};

use crate::classes;

// One more than the largest number of an image.
const OVER: u64 = 4294967296;

// Why digits are no number of an image.
#[derive(Clone, Copy, PartialEq, Eq)]
pub enum DecimalError {
    NoNumeral,
    TooLarge,
}

fn all_digits(s: &[u8]) -> bool
    ensures { result ≡ all_digits s.now }
{
    s.iter().all(|b| classes::digit(*b))
}

fn numeral(s: &[u8]) -> bool
    ensures { result ≡ numeral s.now }
{
    match s {
        [] => false,
        [b] => classes::digit(*b),
        [b'0', ..] => false,
        _ => all_digits(s),
    }
}

fn worth(b: u8) -> u64
    ensures is { result ≡ b - 48 }
    ensures small { result < 208 }
{
    b.saturating_sub(b'0') as u64
}

// The number that digits make, or some number over the largest: further digits never make one smaller.
fn value(s: &[u8]) -> u64
    ensures { Valued s.now result }
{
    let mut n = 0;
    for b in s {
        if OVER <= n {
            return n;
        }
        n = n * 10 + worth(*b);
    }
    n
}

pub fn read_decimal(s: &[u8]) -> Result<u32, DecimalError>
    ensures { DecimalIs s.now result }
{
    if !numeral(s) {
        return Err(DecimalError::NoNumeral);
    }
    let n = value(s);
    if OVER <= n {
        return Err(DecimalError::TooLarge);
    }
    Ok(n as u32)
}
