// The inputs of a call: the image, and what some jobs have behind it.
ghost use Rattle.std.specs.Prelude.{◌≡◌, ◌≤◌, length};
ghost use Rattle.replay.specs.Stream.{has_more, Both, Behind};

use crate::answer::Call;
use crate::page::MOST_BYTES;
use crate::stream::{Cut, Input};
use std::io::Stdin;

// The most bytes behind the image: two inputs.
pub const BEHIND: usize = 2 * MOST_BYTES;

// How many bytes the first input behind the image has, and how many both have, with the input past them.
pub type Inputs = Result<(usize, usize, Input), Cut>;

// Whether a job has anything behind the image: the scan runner a recording, a question a summary, a replacement a summary and a part.
fn has_more(job: u32) -> bool
    ensures { result ≡ has_more job }
{
    job == Call::SCAN || job == Call::USES || job == Call::REPLACE
}

// The second input, behind so many bytes of the first.
fn read_both(
    first: usize,
    input: Input,
    stdin: Stdin,
    room: &mut [u8; Input::ROOM],
    behind: &mut [u8],
) -> Inputs
    requires { (first ≤ 70000) × (length behind.old ≡ 140000) }
    ensures { Both first result }
{
    let (second, past) = input.bytes(stdin, room, &mut behind[first..first + MOST_BYTES])?;
    Ok((first, first + second, past))
}

pub fn read_inputs(
    job: u32,
    input: Input,
    stdin: Stdin,
    room: &mut [u8; Input::ROOM],
    image: &mut [u8],
    behind: &mut [u8],
) -> Inputs
    requires { length behind.old ≡ 140000 }
    ensures { Behind job result }
{
    let start = input.fill(stdin, room, image)?;
    if !has_more(job) {
        return Ok((0, 0, start));
    }
    let (first, next) = start.bytes(stdin, room, &mut behind[..MOST_BYTES])?;
    if job != Call::REPLACE {
        return Ok((first, first, next));
    }
    read_both(first, next, stdin, room, behind)
}
