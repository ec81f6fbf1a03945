// The files that the arguments name.
ghost use Rattle.input.specs.Reading.{IsPrefixLen};

use arrayvec::ArrayString;
use std::fmt::Write;
use std::fs::File;
use std::io;
use std::rt::Env;

// One byte more than an image or a recording may have shows that there are too many.
pub const ROOM: usize = 65537;

// A path that the system takes has fewer bytes.
const PATH: usize = 4096;

// The longest text of an error of the system has fewer bytes, with its number.
const REASON: usize = 256;

// A path is text for the library.
fn open(rt: HostRuntime, path: &[u8]) -> io::Result<File> {
    match std::str::from_utf8(path) {
        Ok(text) => File::open(&rt, text),
        Err(_) => Err(io::Error::new(io::ErrorKind::InvalidInput, "The path is not UTF-8")),
    }
}

// The system's words for an error, without the number that is put behind them.
fn words(reason: &str) -> &str {
    match reason.split_once(" (os error ") {
        Some((words, _)) => words,
        None => reason,
    }
}

// Says on standard error why a file cannot be opened.
fn say_unopened(error: &impl Print, path: &[u8], reason: io::Error) -> io::Result<()> {
    let mut text = ArrayString::<REASON>::new();
    write!(text, "{reason}")?;
    error.write_all(path)?;
    println!(error; ": {}", words(text.as_str()))
}

// Reads the file that argument i names, and gives how many bytes it has, or the buffer's length where it has more. A file that cannot be
// opened is said to be so on standard error, and is then an empty one.
pub fn read_argument(rt: HostRuntime, i: usize, into: &mut [u8]) -> usize
    ensures { IsPrefixLen result into.new }
{
    let mut path = [0u8; PATH];
    let length = rt.arg(i, &mut path).unwrap_or(0);
    match open(rt, &path[..length]) {
        Ok(mut file) => input::read_full(&mut file, into),
        Err(reason) => {
            let _ = say_unopened(&rt.stderr(), &path[..length], reason);
            0
        }
    }
}
