// The line of a refused text on standard error. What is printed here is tested and not proved: no contract can say what is written.
ghost use Rattle.std.specs.Prelude.{◌≤◌, length};

use crate::positions;
use std::io;
use text_reader::judging;
use tokens::runs;

fn say(error: &impl Print, text: &str) -> io::Result<()> {
    error.print(text)
}

fn say_number(error: &impl Print, n: usize) -> io::Result<()> {
    error.print(n)
}

fn say_code(error: &impl Print, code: u32) -> io::Result<()> {
    print!(error; "code {code}")
}

// The place of the token that is at fault, or the text's end.
fn say_place(error: &impl Print, text: &[u8], end: usize) -> io::Result<()>
    requires { end ≤ length text.now }
{
    let place = positions::past(&text[..end]);
    say(error, ": line ")?;
    say_number(error, place.line)?;
    say(error, ", column ")?;
    say_number(error, place.column)
}

// Only 26 and 27 have a place: a text with another code is judged to be fine.
pub fn print(error: &impl Print, text: &[u8], code: u32) -> io::Result<()> {
    say_code(error, code)?;
    if let Err(fault) = judging::judge(text) {
        say_place(error, text, fault.at + runs::skip(&text[fault.at..]))?;
    }
    say(error, "\n")
}

// For a text that is longer than any that is read.
pub fn print_long(error: &impl Print, code: u32) -> io::Result<()> {
    say_code(error, code)?;
    say(error, ": the text has more than 1048576 bytes\n")
}
