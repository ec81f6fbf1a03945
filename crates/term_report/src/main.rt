// Reads a file of images on standard input, each with its length before it, and prints the term report: how often each code was given, the
// units of all, and their mean; or `cut`. Whatever the file's length, it is read in these buffers.
#![tactic(auto)]

mod file;
mod single;
mod taking;

ghost use Rattle.std.specs.Prelude.{◌≡◌, replicate};
ghost use Rattle.reports.specs.Totals.{codes};
ghost use Rattle.term_report.specs.Taking.{Room};

use reports::{texts, totals};
use std::io;

fn print(
    rt: HostRuntime,
    chunk: &mut [u8],
    room: &mut [u8],
    counts: &mut [u64],
    table: &mut [u32],
    out: &mut [u8],
) -> io::Result<()>
    requires { (counts.old ≡ replicate codes 0) × Room room.old counts.old table.old out.old }
{
    let mut page = [0u8; texts::MOST_BYTES];
    let n = file::put_report(&mut page, rt.stdin(), chunk, room, counts, table, out);
    rt.write_all(&page[..n])
}

fn main(rt: HostRuntime) -> io::Result<()> {
    let mut chunk = [0u8; 65536];
    let mut room = [0u8; single::BYTES];
    let mut counts = [0u64; totals::CODES];
    let mut table = [0u32; single::WORDS];
    let mut out = [0u8; single::BYTES];
    print(rt, &mut chunk, &mut room, &mut counts, &mut table, &mut out)
}
