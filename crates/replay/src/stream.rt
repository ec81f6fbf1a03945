// Standard input, byte by byte out of a room that is filled again where all of it is taken.
ghost use Rattle.std.specs.Prelude.{◌≡◌, length};
ghost use Rattle.replay.specs.Stream.{whole_of, Within};

use std::io::{Read, Stdin};

// The bytes in the room that are still to be taken: those from `at` to `end`.
#[derive(Clone, Copy)]
pub struct Input {
    pub at: usize,
    pub end: usize,
}

// The stream breaks the format.
#[derive(Clone, Copy)]
pub struct Cut;

// What was read, with the input past it.
pub type Taken<T> = Result<(T, Input), Cut>;

// What a number's groups come to.
fn whole(value: u64, past: Input) -> Taken<u32>
    ensures { result ≡ whole_of value past }
{
    if 4294967295 < value {
        return Err(Cut);
    }
    Ok((value as u32, past))
}

impl Input {
    pub const ROOM: usize = 65536;

    // A number has at most five groups of seven bits.
    const GROUPS: u32 = 5;

    pub fn start() -> Input
        ensures { (result.at ≡ 0) × (result.end ≡ 0) }
    {
        Input { at: 0, end: 0 }
    }

    pub fn byte(self, mut stdin: Stdin, room: &mut [u8; Input::ROOM]) -> Option<(u8, Input)> {
        let Input { at, end } = self;
        if at < end && at < Input::ROOM {
            return Some((room[at], Input { at: at + 1, end }));
        }
        let read = stdin.read(room).unwrap_or(0);
        if read == 0 {
            return None;
        }
        Some((room[0], Input { at: 1, end: read }))
    }

    // The next number, or none where the input ends before its first byte.
    pub fn number(
        self,
        stdin: Stdin,
        room: &mut [u8; Input::ROOM],
    ) -> Result<Option<(u32, Input)>, Cut> {
        let mut here = self;
        let mut value: u64 = 0;
        for group in 0..Input::GROUPS {
            let Some((b, past)) = here.byte(stdin, room) else {
                return if group == 0 { Ok(None) } else { Err(Cut) };
            };
            value |= ((b & 127) as u64) << (7 * group);
            if b < 128 {
                return Ok(Some(whole(value, past)?));
            }
            here = past;
        }
        Err(Cut)
    }

    // A number where the stream may not end.
    fn due(self, stdin: Stdin, room: &mut [u8; Input::ROOM]) -> Taken<u32> {
        self.number(stdin, room)?.ok_or(Cut)
    }

    pub fn numbers(self, stdin: Stdin, room: &mut [u8; Input::ROOM]) -> Taken<[u32; 5]> {
        let mut here = self;
        let mut into = [0u32; 5];
        for i in 0..5 {
            let (n, past) = here.due(stdin, room)?;
            into[i] = n;
            here = past;
        }
        Ok((into, here))
    }

    // The next bytes, as many as `into` has.
    pub fn fill(
        self,
        stdin: Stdin,
        room: &mut [u8; Input::ROOM],
        into: &mut [u8],
    ) -> Result<Input, Cut> {
        let mut here = self;
        for i in 0..into.len() {
            let (b, past) = here.byte(stdin, room).ok_or(Cut)?;
            into[i] = b;
            here = past;
        }
        Ok(here)
    }

    // A length and so many bytes, into the front of `into`.
    pub fn bytes(self, stdin: Stdin, room: &mut [u8; Input::ROOM], into: &mut [u8]) -> Taken<usize>
        ensures { Within (length into.old) result }
    {
        let (number, past) = self.due(stdin, room)?;
        let length = number as usize;
        if into.len() < length {
            return Err(Cut);
        }
        let behind = past.fill(stdin, room, &mut into[..length])?;
        Ok((length, behind))
    }
}
