// The whole text of a recording into lent bytes, or nothing.
ghost use Rattle.std.specs.Prelude.{◌≡◌, ◌≤◌, length, replicate};
ghost use Rattle.scan_runner.specs.Running.{Runnable, Ran, Standing, RunsPrepared, Runs};

use crate::preparation::Prepared;
use crate::refusal::ScanRefusal;
use crate::{preparation, step};
use bits::Gathered;
use numbers::Cursor;
use panel_check::refusal::PanelRefusal;
use refusals::Refusal;
use scan_lines::{lengths, listing};
use wiring::Wired;

// The lines of all scans, where there is room for them. Code, places, points and bits are no one struct: each is a part of a buffer of its own
// length, lent for this call alone.
fn run_scans(
    recording: &[u8],
    first: Cursor,
    scans: u32,
    code: &[u16],
    places: &[u16],
    points: &mut [u8],
    bits: &mut [u8],
    out: &mut [u8],
)
    requires { Runnable recording.now first.at scans code.now places.now points.old bits.old out.old }
    ensures { Ran recording.now first.at scans code.now places.now points.old bits.old out.old out.new }
{
    let mut here = first;
    let mut at = 0;
    for done in 0..scans {
        here = step::scan_once(here, &recording[here.at..], code, points, bits);
        at = scan_lines::put_line(out, at, done + 1, places, points);
    }
}

// Code 20, or all lines of what is prepared: how many bytes were written.
fn run_prepared(
    recording: &[u8],
    marks: &[u8],
    code: &[u16],
    points: &mut [u8],
    bits: &mut [u8],
    out: &mut [u8],
    p: Prepared,
) -> Result<u32, ScanRefusal>
    requires { Standing recording.now marks.now code.now points.old bits.old p }
    ensures { RunsPrepared recording.now marks.now code.now bits.old p out.old out.new result }
{
    let total = lengths::total_length(p.scans, lengths::fixed_length(marks));
    if out.len() < total as usize {
        return Err(ScanRefusal::Panel(PanelRefusal::Base(Refusal::TooLong)));
    }
    let mut places = [0u16; Gathered::POINTS];
    let driven = listing::list_points(marks, &mut places);
    run_scans(
        recording,
        p.first,
        p.scans,
        &code[..p.words as usize],
        &places[..driven],
        points,
        &mut bits[..p.bits as usize],
        out,
    );
    Ok(total)
}

// The lines of a recording, run on the program of a tree image: how many bytes were written.
pub fn run_job(image: &[u8], recording: &[u8], out: &mut [u8]) -> Result<u32, ScanRefusal>
    ensures { Runs image.now recording.now out.old out.new result }
{
    let mut marks = [0u8; Gathered::POINTS];
    let mut names = [0u32; Gathered::ROOM as usize];
    let mut code = [0u16; Wired::ROOM];
    let mut values = [0u8; Gathered::POINTS];
    let mut bits = [0u8; Gathered::ROOM as usize];
    let p = preparation::prepare(
        image, recording, &mut marks, &mut names, &mut code, &mut bits,
    )?;
    run_prepared(recording, &marks, &code, &mut values, &mut bits, out, p)
}
