// Numbers of an image: groups of seven bits, low group first, top bit set on all but the last, shortest form only.
#![tactic(auto)]

ghost use Rattle.std.specs.Prelude.{◌≡◌, ℕ, ◌+◌, ◌-◌, ◌≤◌, ◌<◌, length, drop};
ghost use Rattle.std.proofs.lemmas.List.Edits.{sets};
ghost use Rattle.numbers.specs.Limits.{most_image};
ghost use Rattle.model.specs.Reading.{num, groups, num_up_to, num_below};
ghost use Rattle.model.specs.Writing.{num_bytes};
ghost use Rattle.refusals.specs.Refusing.{refusal_of};
ghost use Rattle.numbers.specs.Answers.{read_at};
ghost use Rattle.numbers.specs.Weights.{Weighed};

use refusals::Refusal;

// A place in an image.
#[derive(Clone, Copy)]
pub struct Cursor {
    pub at: usize,
}

// What was read with the place past it, or the fault.
pub type Read<T> = Result<(T, Cursor), Refusal>;

impl Cursor {
    // Bytes of an image.
    pub const MOST_IMAGE: usize = 65536;

    // Levels of what an image holds.
    pub const MOST_NESTING: u32 = 64;

    // The image from `past` on, where `s` is the image from this cursor on.
    pub fn after(self, s: &[u8], past: Cursor) -> &[u8]
        requires { (self.at ≤ past.at) × (past.at ≤ self.at + length s.now) }
        ensures { result.now ≡ drop (past.at - self.at) s.now }
    {
        let k = past.at - self.at;
        &s[k..]
    }

    // The number at this cursor, where `s` is the image from here on.
    pub fn number(self, s: &[u8]) -> Read<u32>
        requires { self.at + length s.now ≤ most_image }
        ensures { result ≡ read_at (self.at + length s.now) (num s.now) }
    {
        if s.is_empty() {
            return Err(Refusal::Layout);
        }
        let b = s[0];
        let past = Cursor { at: self.at + 1 };
        if b < 128 {
            return Ok((b as u32, past));
        }
        past.groups(&s[1..], 3, 128, (b - 128) as u32)
    }

    // The groups after the first: `sum` is what they add to, `weight` the next one's, and `left` more come before the fifth.
    fn groups(self, s: &[u8], left: u32, weight: u32, sum: u32) -> Read<u32>
        requires { (self.at + length s.now ≤ most_image) × Weighed left weight sum }
        ensures { result ≡ read_at (self.at + length s.now) (groups left weight sum s.now) }
    {
        if s.is_empty() {
            return Err(Refusal::Layout);
        }
        let b = s[0];
        let past = Cursor { at: self.at + 1 };
        if left == 0 {
            if 15 < b {
                return Err(Refusal::OverLimit);
            }
            if b != 0 {
                return Ok((sum + b as u32 * weight, past));
            }
            return Err(Refusal::Layout);
        }
        if b == 0 {
            return Err(Refusal::Layout);
        }
        if b < 128 {
            return Ok((sum + b as u32 * weight, past));
        }
        past.groups(
            &s[1..],
            left - 1,
            weight * 128,
            sum + (b - 128) as u32 * weight,
        )
    }

    // A number that is at most `most`, else the fault given.
    pub fn number_up_to(self, s: &[u8], fault: Refusal, most: u32) -> Read<u32>
        requires { self.at + length s.now ≤ most_image }
        ensures { result ≡ read_at (self.at + length s.now) (num_up_to (refusal_of fault) most s.now) }
    {
        let (n, past) = self.number(s)?;
        if most < n {
            return Err(fault);
        }
        Ok((n, past))
    }

    // A number of something declared: below `limit`.
    pub fn number_below(self, s: &[u8], limit: u32) -> Read<u32>
        requires { self.at + length s.now ≤ most_image }
        ensures { result ≡ read_at (self.at + length s.now) (num_below limit s.now) }
    {
        let (n, past) = self.number(s)?;
        if limit <= n {
            return Err(Refusal::Layout);
        }
        Ok((n, past))
    }
}

// How many bytes a number takes.
pub fn number_len(n: u32) -> usize
    ensures { result ≡ length (num_bytes n) }
{
    if n < 128 {
        1
    } else if n < 16384 {
        2
    } else if n < 2097152 {
        3
    } else if n < 268435456 {
        4
    } else {
        5
    }
}

// Writes a number at a place, and gives the place past it.
pub fn put_number(out: &mut [u8], at: usize, n: u32) -> usize
    requires { at + length (num_bytes n) ≤ length out.old }
    ensures past { result ≡ at + length (num_bytes n) }
    ensures bytes { out.new ≡ sets out.old at (num_bytes n) }
{
    let mut i = at;
    let mut v = n;
    while 127 < v {
        out[i] = (v % 128 + 128) as u8;
        v = v / 128;
        i += 1;
    }
    out[i] = v as u8;
    i + 1
}
