// The lines of all scans, one at a time.
ghost use Rattle.std.specs.Prelude.{◌≡◌, ◌≤◌, length, replicate};
ghost use Rattle.bits.specs.Meeting.{room, points, NoMarks};
ghost use Rattle.wiring.specs.Words.{most_words};
ghost use Rattle.scan_runner.specs.Running.{Standing};
ghost use Rattle.scan.specs.Printing.{most_line, Printable};

use bits::Gathered;
use numbers::Cursor;
use scan_lines::listing;
use scan_runner::preparation::Prepared;
use scan_runner::{preparation, step};
use std::io;

// A number of ten digits, eight bytes for each of 1,024 points, and the line end.
pub const ROOM: usize = 8203;

fn print_scans(
    out: &impl Print,
    recording: &[u8],
    first: Cursor,
    scans: u32,
    code: &[u16],
    places: &[u16],
    points: &mut [u8],
    bits: &mut [u8],
    line: &mut [u8],
) -> io::Result<()>
    requires { Printable recording.now first.at scans code.now places.now points.old bits.old line.old }
{
    let front = Cursor { at: 0 };
    let mut here = first;
    for done in 0..scans {
        let s = front.after(recording, here);
        here = step::scan_once(here, s, code, points, bits);
        let end = scan_lines::put_line(line, 0, done + 1, places, points);
        out.write_all(&line[..end])?;
    }
    Ok(())
}

fn print_prepared(
    out: &impl Print,
    recording: &[u8],
    marks: &[u8],
    code: &[u16],
    points: &mut [u8],
    bits: &mut [u8],
    line: &mut [u8],
    p: Prepared,
) -> io::Result<()>
    requires stands { Standing recording.now marks.now code.now points.old bits.old p }
    requires room { most_line ≤ length line.old }
{
    let mut places = [0u16; Gathered::POINTS];
    let driven = listing::list_points(marks, &mut places);
    print_scans(
        out,
        recording,
        p.first,
        p.scans,
        &code[..p.words as usize],
        &places[..driven],
        points,
        &mut bits[..p.bits as usize],
        line,
    )
}

fn refuse(error: &impl Print, code: u32, line: &mut [u8]) -> io::Result<()>
    requires { most_line ≤ length line.old }
{
    let number = text::put_named(line, 0, b"code ", code);
    let end = text::put_text(line, number, b"\n");
    error.write_all(&line[..end])
}

pub fn print(
    rt: HostRuntime,
    image: &[u8],
    recording: &[u8],
    marks: &mut [u8],
    names: &mut [u32],
    code: &mut [u16],
    values: &mut [u8],
    bits: &mut [u8],
    line: &mut [u8],
) -> io::Result<()>
    requires clear { NoMarks marks.old × (room ≤ length names.old) }
    requires room { (most_words ≤ length code.old) × (room ≤ length bits.old) × (values.old ≡ replicate points 0) × (most_line ≤ length line.old) }
{
    match preparation::prepare(image, recording, marks, names, code, bits) {
        Ok(p) => print_prepared(&rt, recording, marks, code, values, bits, line, p),
        Err(f) => refuse(&rt.stderr(), f.code(), line),
    }
}
