// Reads a text on standard input and writes its syntax image on standard output (document 02, T-05). Of a text that is refused it writes nothing
// there, and on standard error one line: the code, and for 26 and 27 the line and the column of the fault.
#![tactic(auto)]

mod faults;
mod positions;

ghost use Rattle.std.specs.Prelude.{◌≡◌, length};

use meirhuppa::{limits, text_jobs};
use refusals::Refusal;
use std::io;

const MOST_TEXT: usize = 1048576;

// One byte more than a text may have shows that there are too many.
const INPUT: usize = MOST_TEXT + 1;

fn write_image(rt: HostRuntime, text: &[u8], out: &mut [u8]) -> io::Result<()> {
    let answer = text_jobs::meirhuppa_read(text, out);
    if answer.code == 0 {
        rt.write_all(&out[..answer.length as usize])
    } else {
        faults::print(&rt.stderr(), text, answer.code)
    }
}

fn refuse_long(error: &impl Print) -> io::Result<()> {
    faults::print_long(error, Refusal::OverLimit.code())
}

// Zeros for a text; main has to know how many, and nothing else of them.
fn room() -> [u8; INPUT]
    ensures { 1048577 ≡ length result }
{
    [0; INPUT]
}

fn main(rt: HostRuntime) -> io::Result<()> {
    let mut text = room();
    let n = input::read_full(&mut rt.stdin(), &mut text);
    if MOST_TEXT < n {
        return refuse_long(&rt.stderr());
    }
    let mut out = [0u8; limits::MOST_IMAGE];
    write_image(rt, &text[..n], &mut out)
}
