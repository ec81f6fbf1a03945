// Text written into a buffer: bytes as they are, numbers in decimal, bytes in hexadecimal.
#![tactic(auto)]

ghost use Rattle.std.specs.Prelude.{[], ◌++◌, ◌+◌, ◌*◌, ◌/◌, ◌%◌, ◌≤◌, ◌<◌, ◌≡◌, length};
ghost use Rattle.model.specs.Jobs.{digits};
ghost use Rattle.text.specs.Placing.{Placed};
ghost use Rattle.text.specs.Hexadecimal.{hex_digit, hex_of};

// A number of 32 bits has at most so many digits.
const MOST_DIGITS: usize = 10;

// Writes a text at a place, and gives the place past it. Byte by byte: `copy_from_slice` would ask whoever links the library for `memmove`.
#[tactic(auto, using(crate::proofs::Placing::text_laws))]
pub fn put_text(out: &mut [u8], at: usize, text: &[u8]) -> usize
    requires { at + length text.now ≤ length out.old }
    ensures { Placed out.old at text.now out.new result }
{
    let mut to = at;
    for byte in text {
        out[to] = *byte;
        to += 1;
    }
    to
}

// The digits of a number, `left` at most, where there is room for just these.
pub fn put_wide(out: &mut [u8], at: usize, left: usize, n: u64) -> usize
    requires { at + length (digits left n []) ≤ length out.old }
    ensures { Placed out.old at (digits left n []) out.new result }
{
    if left == 0 {
        return at;
    }
    if n < 10 {
        out[at] = b'0' + n as u8;
        return at + 1;
    }
    let last = put_wide(out, at, left - 1, n / 10);
    out[last] = b'0' + (n % 10) as u8;
    last + 1
}

// All digits of a number of 32 bits. Most have one, and those need no further call.
pub fn put_number(out: &mut [u8], at: usize, n: u32) -> usize
    requires { at + length (digits 10 n []) ≤ length out.old }
    ensures { Placed out.old at (digits 10 n []) out.new result }
{
    if n < 10 {
        out[at] = b'0' + n as u8;
        return at + 1;
    }
    put_wide(out, at, MOST_DIGITS, u64::from(n))
}

pub fn put_decimal(out: &mut [u8], at: usize, n: u32) -> usize
    requires { at + 10 ≤ length out.old }
    ensures bytes { Placed out.old at (digits 10 n []) out.new result }
    ensures few { result ≤ at + 10 }
{
    put_number(out, at, n)
}

// A word and the number behind it.
pub fn put_named(out: &mut [u8], at: usize, word: &[u8], n: u32) -> usize
    requires { at + length word.now + 10 ≤ length out.old }
    ensures bytes { Placed out.old at (word.now ++ digits 10 n []) out.new result }
    ensures few { result ≤ at + length word.now + 10 }
{
    let number = put_text(out, at, word);
    put_decimal(out, number, n)
}

fn digit(d: u8) -> u8
    requires { d < 16 }
    ensures { result ≡ hex_digit d }
{
    if d < 10 { b'0' + d } else { b'a' - 10 + d }
}

// Two digits for each byte, the high one first.
pub fn put_hexadecimal(out: &mut [u8], at: usize, bytes: &[u8]) -> usize
    requires { at + length bytes.now * 2 ≤ length out.old }
    ensures { Placed out.old at (hex_of bytes.now) out.new result }
{
    let mut to = at;
    for b in bytes {
        out[to] = digit(*b / 16);
        out[to + 1] = digit(*b % 16);
        to += 2;
    }
    to
}
